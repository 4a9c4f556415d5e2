// The fees of a month.
ghost use Rattle.std.specs.Prelude.{◌≡◌, ◌≤◌};
ghost use Rattle.sheet.specs.Layout.{sheet_of};
ghost use Rattle.sheet.specs.Inner.Views.{sheet_in, unit_in};
ghost use Rattle.fund.specs.Fees.{pays, month_fees};
ghost use Rattle.fund.specs.Inner.Fees.{unit_fee};

use sheet::rows::Field;
use sheet::{Model, RowView, Sheet};
use weights::has_no_device;

fn pays(row: RowView<'_>) -> bool
    ensures { result ≡ pays (sheet_in row.entry) (unit_in row.entry) }
{
    match row.sheet.model() {
        Model::ByLoad | Model::ByArea => true,
        _ => has_no_device(row),
    }
}

// Rounded for each unit by itself.
fn unit_fee(row: RowView<'_>, rate: u64) -> u64
    requires { rate ≤ 1000000 }
    ensures { (result ≡ unit_fee rate (sheet_in row.entry) (unit_in row.entry)) × (result ≤ 1000000) }
{
    if pays(row) {
        return (u64::from(row.field(Field::HeatedArea)) * rate + 5000) / 10000;
    }
    0
}

pub(crate) fn month_fees(sheet: Sheet<'_>, rate: u64) -> u64
    requires { rate ≤ 1000000 }
    ensures { result ≡ month_fees rate (sheet_of sheet.entry.bytes.now) }
{
    let mut fees = 0;
    for row in sheet.rows() {
        fees += unit_fee(row, rate);
    }
    fees
}
