// A book that 15 doesn't refuse, and what the calls read in it.
ghost use Rattle.std.specs.Prelude.{◌≡◌, map, length};
ghost use Rattle.sheet.specs.Layout.{sheet_of};
ghost use Rattle.sheet.specs.Check.{same_list};
ghost use Rattle.yearbook.specs.Inner.Sound.{Sound};

use crate::layout;
use crate::months::MonthPlace;
use sheet::{Refusal, Sheet, rows};

#[derive(Clone, Copy)]
pub(crate) struct Book<'a> {
    numbers: &'a [u32],
    ghost sound: { Sound numbers.now },
}

// Whether the sheet has these ids, in this order.
fn same_ids(ids: &[u32], sheet: Sheet<'_>) -> bool
    requires { length ids.now ≡ (sheet_of sheet.bytes.now).unit_count }
    ensures { result ≡ same_list ids.now (map (λ u. u.id) (sheet_of sheet.entry.bytes.now).units) }
{
    ids.iter()
        .zip(sheet.rows())
        .all(|(&id, row)| id == row.field(rows::Field::Id))
}

impl<'a> Book<'a> {
    ghost use Rattle.std.specs.Prelude.{true, false, ◌≤◌, MatchResult};
    ghost use Rattle.sheet.specs.declared.refusal.Refusal.TheVariants.{BadYearBook};
    ghost use Rattle.yearbook.specs.LentBook.{unit_count_in, marked, block_in, bad_book, other_building, marks_in};

    // 15
    pub(crate) fn check(numbers: &'a [u32]) -> Result<Book<'a>, Refusal>
        ensures { MatchResult result (λ book. (bad_book numbers.now ≡ false) × (book.numbers ≡ numbers.entry)) (λ r. (bad_book numbers.now ≡ true) × (r ≡ BadYearBook)) }
    {
        if layout::bad_book(numbers) {
            return Err(Refusal::BadYearBook);
        }
        Ok(Book { numbers })
    }

    // n
    pub(crate) fn unit_count(self) -> u32
        ensures { (result ≡ unit_count_in self.entry.numbers.now) × (result ≤ 160) }
    {
        self.numbers[layout::UNIT_COUNT]
    }

    // Whether the month at a place stands.
    pub(crate) fn stands(self, at: MonthPlace) -> bool
        ensures { result ≡ marked self.entry.numbers.now at.place }
    {
        self.numbers[layout::MARKS + at.place] == 1
    }

    // Its block.
    pub(crate) fn block(self, at: MonthPlace) -> &'a [u32]
        ensures { result.now ≡ block_in self.entry.numbers.now at.place }
    {
        let start = layout::BLOCKS + layout::BLOCK_LENGTH * at.place;
        &self.numbers[start..start + layout::BLOCK_LENGTH]
    }

    // k
    pub(crate) fn standing_months(self) -> u32
        ensures { result ≡ marks_in self.entry.numbers.now }
    {
        let marks = &self.numbers[layout::MARKS..layout::METERS];
        marks.iter().map(|&mark| u32::from(mark == 1)).sum()
    }

    // 16
    pub(crate) fn other_building(self, sheet: Sheet<'_>) -> bool
        ensures { result ≡ other_building self.entry.numbers.now (sheet_of sheet.entry.bytes.now) }
    {
        let n = sheet.unit_count();
        self.unit_count() as usize != n
            || !same_ids(&self.numbers[layout::IDS..layout::IDS + n], sheet)
    }
}
