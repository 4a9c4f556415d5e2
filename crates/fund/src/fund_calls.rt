// The calls on a fund.
ghost use Rattle.std.specs.Prelude.{◌≡◌};
ghost use Rattle.fund.specs.Answer.{collect_answer, collected, pay_answer, paid_out};

use crate::fees::month_fees;
use sheet::{Refusal, Sheet};
use weights::Month;

// In thousandths of a cent per m².
const MAX_RATE: u32 = 1_000_000;

// A month's fees into the fund: 1 to 12, then 24, 25. A refused call leaves the fund as it was.
pub fn collect_fees(fund: &mut u64, sheet: &[u8], rate: u32) -> Result<(), Refusal>
    ensures value { result ≡ collect_answer fund.old sheet.now rate }
    ensures fund_after { fund.new ≡ collected fund.old sheet.now rate }
{
    let sheet = Sheet::check(sheet)?;
    Month::measure(sheet::NEWEST, sheet)?;
    if MAX_RATE < rate {
        return Err(Refusal::RateTooHigh);
    }
    let Some(grown) = fund.checked_add(month_fees(sheet, u64::from(rate))) else {
        return Err(Refusal::FundFull);
    };
    *fund = grown;
    Ok(())
}

// A decided amount out of the fund: 23. A refused call leaves the fund as it was.
pub fn pay_out(fund: &mut u64, amount: u64) -> Result<(), Refusal>
    ensures value { result ≡ pay_answer fund.old amount }
    ensures fund_after { fund.new ≡ paid_out fund.old amount }
{
    if *fund < amount {
        return Err(Refusal::FundShort);
    }
    *fund -= amount;
    Ok(())
}
