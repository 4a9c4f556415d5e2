// Step 2's exception: every meter is read, and the units' heat is C.
ghost use Rattle.std.specs.Prelude.{◌≡◌};
ghost use Rattle.sheet.specs.Layout.{sheet_of};
ghost use Rattle.sheet.specs.WattHours.{amount_of};
ghost use Rattle.month.specs.Weights.{all_metered, metered_sum};
ghost use Rattle.weights.specs.Inner.Metered.{metered_heat};

use crate::basis::Basis;
use sheet::rows::Field;
use sheet::{Model, Sheet, Wh};

// Model 5 with every status 0.
pub fn all_metered(basis: &Basis<'_>) -> bool
    ensures { result ≡ all_metered (sheet_of basis.now.sheet.bytes.now) }
{
    match basis.sheet.model() {
        Model::ByMeters => basis.totals.read == basis.sheet.unit_count() as u64,
        _ => false,
    }
}

// The readings, as amounts of Wh.
fn metered_sum(sheet: Sheet<'_>) -> Option<Wh>
    ensures { result ≡ amount_of (metered_sum (sheet_of sheet.entry.bytes.now)) }
{
    let mut sum = Wh::ZERO;
    for row in sheet.rows() {
        let reading = Wh::of(u64::from(row.field(Field::Reading)))?;
        sum = sum.plus(reading)?;
    }
    Some(sum)
}

// C, or nothing where the exception doesn't hold.
pub fn metered_heat(basis: &Basis<'_>) -> Option<Wh>
    ensures { result ≡ amount_of (metered_heat (sheet_of basis.now.sheet.bytes.now)) }
{
    if all_metered(basis) {
        return metered_sum(basis.sheet);
    }
    Some(Wh::ZERO)
}
