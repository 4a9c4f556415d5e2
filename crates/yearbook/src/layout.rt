// The numbers of a year book (document 01, "Year book") by name, and refusal 15 of every call but the opening.
ghost use Rattle.std.specs.Prelude.{◌≡◌};
ghost use Rattle.yearbook.specs.LentBook.{bad_book};

pub(crate) const BOOK_LENGTH: usize = 15557;

const MOST_UNITS: u32 = 160;

// n.
pub(crate) const UNIT_COUNT: usize = 0;

// Where the twelve marks, shared meters and bills start, the ids and the twelve blocks.
pub(crate) const MARKS: usize = 1;

pub(crate) const METERS: usize = 13;

pub(crate) const BILLS: usize = 25;

pub(crate) const IDS: usize = 37;

pub(crate) const BLOCKS: usize = 197;

pub(crate) const BLOCK_LENGTH: usize = 1280;

// Not 15,557 numbers, n over 160 or a mark over 1.
pub fn bad_book(book: &[u32]) -> bool
    ensures { result ≡ bad_book book.now }
{
    if book.len() != BOOK_LENGTH {
        return true;
    }
    book[UNIT_COUNT] > MOST_UNITS || book[MARKS..METERS].iter().any(|&mark| mark > 1)
}
