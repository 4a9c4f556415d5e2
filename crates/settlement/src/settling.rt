// A sheet settled, for any bytes.
ghost use Rattle.std.specs.Prelude.{◌≡◌, ◌*◌, length};
ghost use Rattle.sheet.specs.RuleSets.{newest};
ghost use Rattle.sheet.specs.Layout.{sheet_of};
ghost use Rattle.month.specs.Month.{statement_with};
ghost use Rattle.weights.specs.Inner.Months.{sheet_of_month};
ghost use Rattle.settlement.specs.Settle.{settle_answer, statement_after};
ghost use Rattle.settlement.specs.Inner.Heat.{Charged};
ghost use Rattle.settlement.specs.Inner.Months.{month_answer, after_month};

use crate::bill;
use crate::divide::Parts;
use crate::heat::{heat_parts, heat_shares};
use crate::layout::put_energies;
use crate::water::water_shares;
use sheet::{Refusal, RuleSet, Sheet};
use weights::Month;

// Steps 3 to 7 of a month, into a list of 8n numbers.
pub(crate) fn write_statement<'a>(
    month: &'a Month<'a>,
    parts: Parts,
    bill: u64,
    statement: &mut [u32],
)
    requires { Charged month.now parts bill × (length statement.old ≡ 8 * (sheet_of_month month.now).unit_count) }
    ensures { statement.new ≡ statement_with month.now.basis.rules (sheet_of_month month.now) parts.common bill }
{
    let mut units_heat = [0u32; 160];
    let mut common_heat = [0u32; 160];
    let mut units_water = [0u32; 160];
    let mut common_water = [0u32; 160];
    heat_shares(month, parts, &mut units_heat, &mut common_heat);
    water_shares(month, &mut units_water, &mut common_water);
    let n = month.basis.sheet.unit_count();
    put_energies(
        n,
        &units_heat,
        &common_heat,
        &units_water,
        &common_water,
        statement,
    );
    bill::write_costs(month.basis.rules, n, bill, statement);
}

// A sheet by the rules: 8 to 12, then 13, then the statement.
pub fn settle_checked(
    rules: RuleSet,
    sheet: Sheet<'_>,
    statement: &mut [u32],
) -> Result<(), Refusal>
    ensures value { result ≡ month_answer rules (sheet_of sheet.entry.bytes.now) statement.old }
    ensures statement_after { statement.new ≡ after_month rules (sheet_of sheet.entry.bytes.now) statement.old }
{
    let month = Month::measure(rules, sheet)?;
    if statement.len() != 8 * sheet.unit_count() {
        return Err(Refusal::BufferLength);
    }
    let parts = heat_parts(&month);
    write_statement(&month, parts, bill::bill_cents(sheet), statement);
    Ok(())
}

// The statement of a sheet by the newest rules into a list of 8n numbers: 1 to 12, then 13. A refused call leaves the list as it was.
pub fn settle(sheet: &[u8], statement: &mut [u32]) -> Result<(), Refusal>
    ensures value { result ≡ settle_answer newest sheet.now statement.old }
    ensures statement_after { statement.new ≡ statement_after newest sheet.now statement.old }
{
    let sheet = Sheet::check(sheet)?;
    settle_checked(sheet::NEWEST, sheet, statement)
}
