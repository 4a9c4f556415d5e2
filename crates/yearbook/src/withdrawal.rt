// Withdraw: a month holds nothing, and its block is taken off the sums.
ghost use Rattle.yearbook.specs.Calls.{reply_of};
ghost use Rattle.yearbook.specs.LentBook.{lent, Answered};

use crate::book::Book;
use crate::layout;
use crate::months::{self, Month, MonthPlace};
use sheet::Refusal;

// 15; 17 when the month isn't 1 to 12 or doesn't stand; 19.
pub fn withdraw(book: &mut [u32], sums: &mut [u64], month: u32) -> Result<(), Refusal>
    ensures { Answered (lent book.old sums.old) (Rattle.yearbook.specs.Calls.withdraw month) (reply_of result) (lent book.new sums.new) }
{
    let before = Book::check(book)?;
    let Some(at) = MonthPlace::of(month) else {
        return Err(Refusal::MonthState);
    };
    if !before.stands(at) {
        return Err(Refusal::MonthState);
    }
    let none = [0; layout::BLOCK_LENGTH];
    let n = before.unit_count() as usize;
    year_sums::update(sums, Some(before.block(at)), &none, n)?;
    let month = Month {
        mark: 0,
        meter: 0,
        bill: 0,
        block: &none,
    };
    months::put_month(book, at, month);
    Ok(())
}
