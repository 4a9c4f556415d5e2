// Opening: n and ids of a sheet, all else 0, and sums of 0.
ghost use Rattle.std.specs.Prelude.{◌≡◌, map, length};
ghost use Rattle.sheet.specs.Layout.{sheet_of};
ghost use Rattle.yearbook.specs.LentBook.{lent, book_length, fresh_book, Opens};

use crate::layout;
use sheet::{Refusal, Sheet, rows};

fn write_ids(ids: &mut [u32], sheet: Sheet<'_>)
    requires { length ids.old ≡ (sheet_of sheet.bytes.now).unit_count }
    ensures { ids.new ≡ map (λ u. u.id) (sheet_of sheet.entry.bytes.now).units }
{
    for (i, id) in ids.iter_mut().enumerate() {
        *id = sheet.row(i).field(rows::Field::Id);
    }
}

fn start(book: &mut [u32], sheet: Sheet<'_>)
    requires { length book.old ≡ book_length }
    ensures { book.new ≡ fresh_book sheet.entry.bytes.now }
{
    book.fill(0);
    let n = sheet.unit_count();
    book[layout::UNIT_COUNT] = n as u32;
    write_ids(&mut book[layout::IDS..layout::IDS + n], sheet);
}

// 15 by the length alone, then 1 to 7, then 19 by the length alone.
pub fn open(book: &mut [u32], sums: &mut [u64], sheet: &[u8]) -> Result<(), Refusal>
    ensures { Opens (lent book.old sums.old) sheet.now result (lent book.new sums.new) }
{
    if book.len() != layout::BOOK_LENGTH {
        return Err(Refusal::BadYearBook);
    }
    let sheet = Sheet::check(sheet)?;
    if sums.len() != layout::BLOCK_LENGTH {
        return Err(Refusal::BadYearSums);
    }
    start(book, sheet);
    year_sums::clear(sums);
    Ok(())
}
