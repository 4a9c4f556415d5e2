// Post and replace: a settled sheet into its month, and its block into the sums.
ghost use Rattle.std.specs.Prelude.{◌≡◌, option_copied, MatchResult, Err, IsOk};
ghost use Rattle.sheet.specs.Check.{checked};
ghost use Rattle.sheet.specs.Refusals.{first_refusal};
ghost use Rattle.month.specs.Month.{settle_rules};
ghost use Rattle.year_sums.specs.Inner.Update.{old_or_zeros};
ghost use Rattle.yearbook.specs.Calls.{reply_of};
ghost use Rattle.yearbook.specs.LentBook.{lent, zero_block, Answered};
ghost use Rattle.yearbook.specs.Inner.Bring.{bring_call, wrong_state, old_block, Settles};

use crate::book::Book;
use crate::layout;
use crate::months::{self, Month, MonthPlace};
use sheet::{Refusal, Sheet, header};

// How a sheet enters the book.
#[derive(Clone, Copy)]
enum Entry {
    Post,
    Replace,
}

impl Entry {
    // 17: the month stands (post) or doesn't (replace).
    fn wrong_state(self, stands: bool) -> bool
        ensures { result ≡ wrong_state self stands }
    {
        match self {
            Entry::Post => stands,
            Entry::Replace => !stands,
        }
    }

    // What it takes off the sums, of the month's block.
    fn old_block(self, block: &[u32]) -> Option<&[u32]>
        ensures { old_or_zeros (option_copied result) ≡ old_block self block.now }
    {
        match self {
            Entry::Post => None,
            Entry::Replace => Some(block),
        }
    }
}

// 8 to 12, and the sheet's block.
fn settle_block(sheet: Sheet<'_>, block: &mut [u32; layout::BLOCK_LENGTH]) -> Result<(), Refusal>
    requires block { block.old ≡ zero_block }
    requires passed { IsOk (checked 32 sheet.bytes.now) }
    ensures { MatchResult result (λ done. Settles sheet.entry.bytes.now block.new) (λ r. first_refusal (settle_rules sheet.entry.bytes.now) ≡ Err r) }
{
    let end = 8 * sheet.unit_count();
    settlement::settle_checked(sheet::NEWEST, sheet, &mut block[..end])
}

// 15, 1 to 12, then 16, 17 and 19. The new block is on the stack, so that no refusal writes to the book.
fn bring(book: &mut [u32], sums: &mut [u64], sheet: &[u8], entry: Entry) -> Result<(), Refusal>
    ensures { Answered (lent book.old sums.old) (bring_call entry sheet.now) (reply_of result) (lent book.new sums.new) }
{
    let before = Book::check(book)?;
    let sheet = Sheet::check(sheet)?;
    let mut block = [0; layout::BLOCK_LENGTH];
    settle_block(sheet, &mut block)?;
    if before.other_building(sheet) {
        return Err(Refusal::OtherBuilding);
    }
    let at = MonthPlace::of(sheet.header(header::Field::Month)).unwrap();
    if entry.wrong_state(before.stands(at)) {
        return Err(Refusal::MonthState);
    }
    let old = entry.old_block(before.block(at));
    year_sums::update(sums, old, &block, sheet.unit_count())?;
    let meter = sheet.header(header::Field::SharedMeter);
    let bill = settlement::bill_cents(sheet) as u32;
    let month = Month {
        mark: 1,
        meter,
        bill,
        block: &block,
    };
    months::put_month(book, at, month);
    Ok(())
}

pub fn post(book: &mut [u32], sums: &mut [u64], sheet: &[u8]) -> Result<(), Refusal>
    ensures { Answered (lent book.old sums.old) (Rattle.yearbook.specs.Calls.post sheet.now) (reply_of result) (lent book.new sums.new) }
{
    bring(book, sums, sheet, Entry::Post)
}

pub fn replace(book: &mut [u32], sums: &mut [u64], sheet: &[u8]) -> Result<(), Refusal>
    ensures { Answered (lent book.old sums.old) (Rattle.yearbook.specs.Calls.replace sheet.now) (reply_of result) (lent book.new sums.new) }
{
    bring(book, sums, sheet, Entry::Replace)
}
