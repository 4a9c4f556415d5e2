// A building of a group (2026-04): what the group asks of it first, and its statement with what the group brings it.
ghost use Rattle.std.specs.Prelude.{◌≡◌};
ghost use Rattle.sheet.specs.Layout.{sheet_of};
ghost use Rattle.month.specs.Month.{statement_with};
ghost use Rattle.settlement.specs.Inner.Building.{survey_of, GroupCharges};

use crate::divide::Parts;
use crate::heat::heat_parts;
use crate::settling::write_statement;
use sheet::{Refusal, RuleSet, Sheet};
use weights::Month;

// The sum of p and the common heat of step 2.
#[derive(Clone, Copy)]
pub struct Survey {
    pub area: u64,
    pub common: u64,
}

// A building's own 1 to 12, then the two figures.
pub fn survey_sheet(rules: RuleSet, sheet: &[u8]) -> Result<Survey, Refusal>
    ensures { result ≡ survey_of rules sheet.now }
{
    let month = Month::measure(rules, Sheet::check(sheet)?)?;
    Ok(Survey {
        area: month.basis.totals.area,
        common: heat_parts(&month).common,
    })
}

// Steps 1 to 7 of a sheet that is not refused, where step 5 divides this common heat and step 7 this bill, into a list of 8n numbers.
pub fn settle_with(rules: RuleSet, sheet: Sheet<'_>, common: u64, bill: u64, statement: &mut [u32])
    requires { GroupCharges rules sheet.bytes.now common bill statement.old }
    ensures { statement.new ≡ statement_with rules (sheet_of sheet.entry.bytes.now) common bill }
{
    let month = Month::measure(rules, sheet).unwrap();
    let parts = Parts {
        units: heat_parts(&month).units,
        common,
    };
    write_statement(&month, parts, bill, statement);
}
