// A month's place in the book, and the write of a month.
ghost use Rattle.std.specs.Prelude.{◌≡◌, ◌+◌, ◌<◌, ◌⊎◌, MatchOption, length};
ghost use Rattle.yearbook.specs.LentBook.{book_length, put_month};

use crate::layout;

// Where a month stands, from 0.
#[derive(Clone, Copy)]
pub(crate) struct MonthPlace {
    pub(crate) place: usize,
    ghost below: { place < 12 },
}

impl MonthPlace {
    // Months are numbered from 1.
    pub(crate) fn of(month: u32) -> Option<MonthPlace>
        ensures { MatchOption result ((month < 1) ⊎ (12 < month)) (λ at. month ≡ at.place + 1) }
    {
        match month {
            1..=12 => Some(MonthPlace {
                place: month as usize - 1,
            }),
            _ => None,
        }
    }
}

// What the book holds of a month: mark, M, bill and block.
#[derive(Clone, Copy)]
pub(crate) struct Month<'a> {
    pub(crate) mark: u32,
    pub(crate) meter: u32,
    pub(crate) bill: u32,
    pub(crate) block: &'a [u32; layout::BLOCK_LENGTH],
}

// Writes it to the month's place.
pub(crate) fn put_month(book: &mut [u32], at: MonthPlace, month: Month<'_>)
    requires { length book.old ≡ book_length }
    ensures { let m = month.entry in book.new ≡ put_month book.old at.place m.mark m.meter m.bill m.block.now }
{
    book[layout::MARKS + at.place] = month.mark;
    book[layout::METERS + at.place] = month.meter;
    book[layout::BILLS + at.place] = month.bill;
    let start = layout::BLOCKS + layout::BLOCK_LENGTH * at.place;
    let block = month.block;
    book[start..start + layout::BLOCK_LENGTH].copy_from_slice(block);
}
