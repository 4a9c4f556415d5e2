// Year: k, counted from the marks, and a unit's eight sums, read from the list beside the book.
ghost use Rattle.std.specs.Prelude.{◌≡◌, ◌<◌, length};
ghost use Rattle.year_sums.specs.YearSums.{sums_length};
ghost use Rattle.yearbook.specs.LentBook.{lent, sums_at, Tells};

use crate::book::Book;
use crate::layout;
use sheet::Refusal;

// Four sums of energy, then four of cents.
#[derive(Clone, Copy, Default)]
pub struct YearTotals {
    pub k: u32,
    pub sums: [u64; 8],
}

// The eight sums of the unit at a place.
fn unit_sums(sums: &[u64], place: usize) -> [u64; 8]
    requires { (length sums.now ≡ sums_length) × (place < 160) }
    ensures { result ≡ sums_at sums.now place }
{
    let mut unit = [0; 8];
    unit.copy_from_slice(&sums[8 * place..8 * place + 8]);
    unit
}

// 15, 18, 19. The sums are read, no block is added.
pub fn year(book: &[u32], sums: &[u64], place: u32) -> Result<YearTotals, Refusal>
    ensures { Tells (lent book.now sums.now) place result }
{
    let book = Book::check(book)?;
    if place >= book.unit_count() {
        return Err(Refusal::NoSuchUnit);
    }
    if sums.len() != layout::BLOCK_LENGTH {
        return Err(Refusal::BadYearSums);
    }
    Ok(YearTotals {
        k: book.standing_months(),
        sums: unit_sums(sums, place as usize),
    })
}
