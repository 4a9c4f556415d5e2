// A figure of each building.
ghost use Rattle.std.specs.Prelude.{◌≡◌, map, ◌<◌, IfOk, length};
ghost use Rattle.sheet.specs.RuleSets.{newest};
ghost use Rattle.sheet.specs.Inner.Fields.{header_field};
ghost use Rattle.month.specs.Weights.{total_area};
ghost use Rattle.group.specs.Answer.{first_in, own_stages, differs, answer_of};
ghost use Rattle.group.specs.Inner.Parts.{part_in, parts_in, sheets_in};
ghost use Rattle.group.specs.Inner.Figures.{common_heat, list_answer, survey_answer};

use crate::answer::GroupRefusal;
use crate::buildings::{Group, PassedGroup};
use settlement::{Survey, survey_sheet};
use sheet::Refusal;
use sheet::header::Field;

impl<'a> Group<'a> {
    // Building i's own refusal 1 to 12; where there is none, P and the common heat.
    fn survey_building(self, i: usize) -> Result<Survey, GroupRefusal>
        requires { i < length self.buildings.now }
        ensures { result ≡ survey_answer newest i (part_in self.entry i) }
    {
        let building = i as u32;
        survey_sheet(sheet::NEWEST, self.part(i)).map_err(|refusal| GroupRefusal {
            refusal,
            building,
        })
    }

    // All buildings, in list order, up to the first that is refused.
    pub(crate) fn survey(
        self,
        areas: &mut [u64],
        commons: &mut [u64],
    ) -> Result<PassedGroup<'a>, GroupRefusal>
        requires { (length areas.old ≡ length self.buildings.now) × (length commons.old ≡ length self.buildings.now) }
        ensures answer { answer_of result ≡ first_in (own_stages 0 (parts_in self.entry)) }
        ensures group { IfOk result (λ passed. passed.group ≡ self.entry) }
        ensures areas { IfOk result (λ passed. areas.new ≡ map total_area (sheets_in self.entry)) }
        ensures commons { IfOk result (λ passed. commons.new ≡ map (common_heat newest) (sheets_in self.entry)) }
    {
        for i in 0..self.len() {
            let survey = self.survey_building(i)?;
            areas[i] = survey.area;
            commons[i] = survey.common;
        }
        Ok(PassedGroup { group: self })
    }
}

impl<'a> PassedGroup<'a> {
    // A header field of each building.
    pub(crate) fn fields(self, field: Field, out: &mut [u64])
        requires { length out.old ≡ length self.group.buildings.now }
        ensures { out.new ≡ map (λ s. header_field s field) (sheets_in self.entry.group) }
    {
        for (i, figure) in out.iter_mut().enumerate() {
            *figure = u64::from(self.sheet(i).header(field));
        }
    }

    // A building's field differs from the first building's.
    fn differs(self, field: Field) -> bool
        ensures { result ≡ differs (map (λ s. header_field s field) (sheets_in self.entry.group)) }
    {
        let mut values = [0u64; 12];
        let values = &mut values[..self.group.len()];
        self.fields(field, values);
        let first = values[0];
        values.iter().any(|&value| value != first)
    }

    // 22 again, and 13.
    pub(crate) fn check_list(self, numbers: usize) -> Result<(), Refusal>
        ensures { result ≡ list_answer (sheets_in self.entry.group) numbers }
    {
        if self.differs(Field::Month) || self.differs(Field::Price) {
            return Err(Refusal::BadGroup);
        }
        let mut units = [0u64; 12];
        let units = &mut units[..self.group.len()];
        self.fields(Field::UnitCount, units);
        let count: u64 = units.iter().sum();
        if numbers as u64 != 8 * count {
            return Err(Refusal::BufferLength);
        }
        Ok(())
    }
}
