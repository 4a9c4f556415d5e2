// The fixed charges of a sheet, for any bytes.
ghost use Rattle.std.specs.Prelude.{◌≡◌, length};
ghost use Rattle.sheet.specs.RuleSets.{newest};
ghost use Rattle.sheet.specs.Refusals.{first_refusal, afterwards};
ghost use Rattle.sheet.specs.Layout.{sheet_of};
ghost use Rattle.charges.specs.Charges.{fixed_charges};
ghost use Rattle.charges.specs.Answer.{call_rules, charge_answer, charges_after};

use crate::amounts::{Amounts, over_limit};
use crate::columns::write_charges;
use crate::models::{ChargeModel, gather};
use sheet::{Refusal, Sheet};

// A sheet that passes 1 to 7: 4, 9, 13, then the list.
fn charge_checked(
    sheet: Sheet<'_>,
    model: u32,
    amounts: Amounts,
    charges: &mut [u32],
) -> Result<(), Refusal>
    ensures value { result ≡ first_refusal (call_rules model amounts (sheet_of sheet.entry.bytes.now) (length charges.old)) }
    ensures charges_after { charges.new ≡ afterwards result charges.old (fixed_charges newest model amounts (sheet_of sheet.entry.bytes.now)) }
{
    if over_limit(amounts) {
        return Err(Refusal::HeaderField(0));
    }
    let model = ChargeModel::try_from(model)?;
    let mut weights = [0u64; 160];
    let weights = &mut weights[..sheet.unit_count()];
    gather(sheet, model, weights);
    // Areas are above 0, so only loads can add to 0.
    let whole: u64 = weights.iter().sum();
    if whole == 0 {
        return Err(Refusal::ZeroDivisor);
    }
    if charges.len() != 3 * weights.len() {
        return Err(Refusal::BufferLength);
    }
    write_charges(amounts, weights, charges);
    Ok(())
}

// The charges by the newest rules into a list of 3n numbers, unit by unit power, buyer's fee, supplier's fee: 1 to 7, then 4, 9, 13. A refused call leaves the list as it was.
pub fn fixed_charges(
    sheet: &[u8],
    model: u32,
    amounts: Amounts,
    charges: &mut [u32],
) -> Result<(), Refusal>
    ensures value { result ≡ charge_answer sheet.now model amounts charges.old }
    ensures charges_after { charges.new ≡ charges_after newest sheet.now model amounts charges.old }
{
    charge_checked(Sheet::check(sheet)?, model, amounts, charges)
}
