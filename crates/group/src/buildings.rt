// The buildings of a group (2026-04), and the group whose buildings have their sheets in one buffer.
ghost use Rattle.std.specs.Prelude.{◌≡◌, false, IsOk};
ghost use Rattle.group.specs.Answer.{parts_of, bad_group, own_stages, first_in};

use sheet::{Refusal, Sheet};

const MOST_BUILDINGS: usize = 12;

// In Wh.
const MOST_READING: u64 = 4_000_000_000;

// A building: where its sheet lies in the buffer.
#[repr(C)]
#[derive(Clone, Copy)]
pub struct Building {
    pub offset: u64,
    pub length: u64,
}

// Buildings that 22 lets pass at first: each sheet lies inside the buffer.
#[derive(Clone, Copy)]
pub(crate) struct Group<'a> {
    pub sheets: &'a [u8],
    pub buildings: &'a [Building],
    pub reading: u64,
    pub ghost good: { bad_group sheets.now buildings.now reading ≡ false },
}

// Buildings of which none is refused by its own 1 to 12.
#[derive(Clone, Copy)]
pub(crate) struct PassedGroup<'a> {
    pub group: Group<'a>,
    pub ghost passed: { IsOk (first_in (own_stages 0 (parts_of group.sheets.now group.buildings.now))) },
}

impl Building {
    ghost use Rattle.std.specs.Prelude.{◌+◌, ltb};

    // offset + length is past the size; added without wrapping.
    fn leaves(self, size: u64) -> bool
        ensures { result ≡ ltb size (self.offset + self.length) }
    {
        size < self.offset || size - self.offset < self.length
    }
}

// 22, before everything else.
fn bad_group(sheets: &[u8], buildings: &[Building], reading: u64) -> bool
    ensures { result ≡ bad_group sheets.now buildings.now reading }
{
    let size = sheets.len() as u64;
    buildings.is_empty()
        || MOST_BUILDINGS < buildings.len()
        || MOST_READING < reading
        || buildings.iter().any(|building| building.leaves(size))
}

impl<'a> Group<'a> {
    ghost use Rattle.std.specs.Prelude.{◌<◌, ◌≤◌, IfOk, length};
    ghost use Rattle.sheet.specs.Refusals.{outcome_of};
    ghost use Rattle.group.specs.Inner.Parts.{first_answer, part_in};

    pub(crate) fn check(
        sheets: &'a [u8],
        buildings: &'a [Building],
        reading: u64,
    ) -> Result<Group<'a>, Refusal>
        ensures answer { outcome_of result ≡ first_answer sheets.now buildings.now reading }
        ensures group { IfOk result (λ group. (group.sheets ≡ sheets.entry) × (group.buildings ≡ buildings.entry) × (group.reading ≡ reading)) }
    {
        if bad_group(sheets, buildings, reading) {
            return Err(Refusal::BadGroup);
        }
        Ok(Group {
            sheets,
            buildings,
            reading,
        })
    }

    pub(crate) fn len(self) -> usize
        ensures { (result ≡ length self.entry.buildings.now) × (0 < result) × (result ≤ 12) }
    {
        self.buildings.len()
    }

    // Building i's part of the buffer.
    pub(crate) fn part(self, i: usize) -> &'a [u8]
        requires { i < length self.buildings.now }
        ensures { result.now ≡ part_in self.entry i }
    {
        let building = self.buildings[i];
        let from = building.offset as usize;
        let to = from + building.length as usize;
        &self.sheets[from..to]
    }
}

impl<'a> PassedGroup<'a> {
    ghost use Rattle.std.specs.Prelude.{◌<◌, length};
    ghost use Rattle.group.specs.Inner.Parts.{part_in};

    pub(crate) fn sheet(self, i: usize) -> Sheet<'a>
        requires { i < length self.group.buildings.now }
        ensures { result.bytes.now ≡ part_in self.entry.group i }
    {
        Sheet {
            bytes: self.group.part(i),
        }
    }
}
