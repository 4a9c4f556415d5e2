// A group settled.
ghost use Rattle.std.specs.Prelude.{◌≡◌};
ghost use Rattle.sheet.specs.Refusals.{afterwards};
ghost use Rattle.sheet.specs.RuleSets.{newest};
ghost use Rattle.group.specs.Group.{joined, group_statement};
ghost use Rattle.group.specs.Answer.{group_answer, group_after};
ghost use Rattle.group.specs.Inner.Parts.{sheets_in, group_in};
ghost use Rattle.group.specs.Inner.Figures.{statements_of, Charges, Adjusted, Settleable, last_answer};

use crate::answer::GroupRefusal;
use crate::buildings::{Building, Group, PassedGroup};
use crate::difference::{adjust, difference, goes_below, share_difference, size_of};
use settlement::{cents_for, settle_with, share};
use sheet::Refusal;
use sheet::header::Field;

impl<'a> PassedGroup<'a> {
    // Each building's statement into its part of the list.
    fn write_all(self, commons: &[u64], bills: &[u32], statement: &mut [u32])
        requires { Charges newest (sheets_in self.group) commons.now bills.now statement.old }
        ensures { statement.new ≡ joined (statements_of newest (sheets_in self.entry.group) commons.now bills.now) }
    {
        let mut at = 0;
        for (i, (&common, &bill)) in commons.iter().zip(bills).enumerate() {
            let sheet = self.sheet(i);
            let end = at + 8 * sheet.unit_count();
            let part = &mut statement[at..end];
            settle_with(sheet::NEWEST, sheet, common, u64::from(bill), part);
            at = end;
        }
    }

    // The shared bill over the adjusted readings, and each building's part over its energies.
    fn write(self, readings: &[u64], commons: &[u64], statement: &mut [u32])
        requires { Adjusted newest (group_in self.group) readings.now commons.now statement.old }
        ensures { statement.new ≡ group_statement newest (group_in self.entry.group) }
    {
        let price = u64::from(self.sheet(0).header(Field::Price));
        let mut bills = [0u32; 12];
        let bills = &mut bills[..readings.len()];
        let bill = cents_for(self.group.reading, price);
        share(sheet::NEWEST, bill, readings, bills);
        self.write_all(commons, bills, statement);
    }

    // Past 13: the difference's shares take the areas' place; 21, then the statements.
    fn settle(
        self,
        areas: &mut [u64],
        commons: &mut [u64],
        statement: &mut [u32],
    ) -> Result<(), Refusal>
        requires { Settleable newest (group_in self.group) areas.old commons.old statement.old }
        ensures value { result ≡ last_answer newest (group_in self.entry.group) }
        ensures statement_after { statement.new ≡ afterwards result statement.old (group_statement newest (group_in self.entry.group)) }
    {
        let mut readings = [0u64; 12];
        let readings = &mut readings[..self.group.len()];
        self.fields(Field::SharedMeter, readings);
        let difference = difference(self.group.reading, readings);
        share_difference(size_of(difference), areas);
        if goes_below(difference, commons, areas) {
            return Err(Refusal::NegativeCommonHeat);
        }
        adjust(difference, areas, commons);
        adjust(difference, areas, readings);
        self.write(readings, commons, statement);
        Ok(())
    }
}

// Buildings behind one shared meter: 22, each building's own 1 to 12, 22, 13, 21. Accepted, the list holds the statements, building after building; a refused call leaves it as it was.
pub fn settle_group(
    sheets: &[u8],
    buildings: &[Building],
    reading: u64,
    statement: &mut [u32],
) -> Result<(), GroupRefusal>
    ensures value { result ≡ group_answer newest sheets.now buildings.now reading statement.old }
    ensures statement_after { statement.new ≡ group_after newest sheets.now buildings.now reading statement.old }
{
    let group = Group::check(sheets, buildings, reading)?;
    let mut areas = [0u64; 12];
    let areas = &mut areas[..group.len()];
    let mut commons = [0u64; 12];
    let commons = &mut commons[..group.len()];
    let group = group.survey(areas, commons)?;
    group.check_list(statement.len())?;
    group.settle(areas, commons, statement)?;
    Ok(())
}
