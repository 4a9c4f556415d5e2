// The calls for other languages. An answer of 32 bits is 0 when accepted, else number + 256 × place; one of 64 bits is a length.
#![tactic(auto)]

ghost use Rattle.std.specs.Prelude.{◌≡◌, ◌∷◌, ◌≤◌, ◌<◌, IfErr, length};
ghost use Rattle.sheet.specs.Refusals.{place_of};
ghost use Rattle.sheet.specs.Inner.Places.{PlaceBelow};
ghost use Rattle.sheet.specs.RuleSets.{newest};
ghost use Rattle.month.specs.Month.{settled_sheet};
ghost use Rattle.settlement.specs.Settle.{settle_answer, statement_after};
ghost use Rattle.archive.specs.Writer.{write_answer, record_after};
ghost use Rattle.archive.specs.Reader.{read_outcome, count_of};
ghost use Rattle.printing.specs.Printed.{printed, longest, at_front};
ghost use Rattle.yearbook.specs.LentBook.{lent, open_answer, opened, post_answer, posted, replace_answer, replaced, withdraw_answer, withdrawn};
ghost use Rattle.group.specs.Answer.{group_answer, group_after};
ghost use Rattle.charges.specs.Charges.{amounts};
ghost use Rattle.charges.specs.Answer.{charge_answer, charges_after};
ghost use Rattle.fund.specs.Answer.{collect_answer, collected, pay_answer, paid_out};
ghost use Rattle.heatcost.specs.Answer.{answer_number, group_number};
ghost use Rattle.heatcost.specs.Year.{year_list_answer, year_list_after};

use charges::Amounts;
use group::{Building, GroupRefusal};
use sheet::Refusal;
use yearbook::YearTotals;

fn answer(outcome: Result<(), Refusal>) -> u32
    requires { PlaceBelow 160 outcome }
    ensures { result ≡ answer_number outcome }
{
    match outcome {
        Ok(()) => 0,
        Err(refusal) => refusal.number() + 256 * refusal.place(),
    }
}

// The statement of a sheet into a list of 8n numbers.
#[unsafe(no_mangle)]
pub extern "C" fn heatcost_settle(sheet: &[u8], statement: &mut [u32]) -> u32
    ensures value { result ≡ answer_number (settle_answer newest sheet.now statement.old) }
    ensures statement_after { statement.new ≡ statement_after newest sheet.now statement.old }
{
    answer(settlement::settle(sheet, statement))
}

// The archive record of a sheet into a list of 56 + 64n bytes.
#[unsafe(no_mangle)]
pub extern "C" fn heatcost_write_record(sheet: &[u8], out: &mut [u8]) -> u32
    ensures value { result ≡ answer_number (write_answer sheet.now out.old) }
    ensures out_after { out.new ≡ record_after sheet.now out.old }
{
    answer(archive::write(sheet, out))
}

// The check of a record. Accepted, its sheet is the bytes from 8 on.
#[unsafe(no_mangle)]
pub extern "C" fn heatcost_read_record(bytes: &[u8]) -> u32
    ensures { result ≡ answer_number (read_outcome bytes.now) }
{
    answer(archive::check(bytes))
}

// How many bytes the sheet of a record has, 0 on a refusal.
#[unsafe(no_mangle)]
pub extern "C" fn heatcost_record_sheet_len(bytes: &[u8]) -> u64
    ensures { result ≡ count_of (read_outcome bytes.now) bytes.now }
{
    let part = archive::sheet_of(bytes);
    part.len() as u64
}

// The text that is printed of a sheet: how long it is. A list at least as long has it at its front, a shorter one keeps its contents.
#[unsafe(no_mangle)]
pub extern "C" fn heatcost_print(sheet: &[u8], text: &mut [u8]) -> u64
    ensures value { (result ≡ length (printed sheet.now)) × (result ≤ longest (settled_sheet newest sheet.now)) }
    ensures text_after { text.new ≡ at_front (printed sheet.now) text.old }
{
    printing::print(sheet, text) as u64
}

// Opens a year book, a list of 15,557 numbers, and its sums, a list of 1,280, with a sheet.
#[unsafe(no_mangle)]
pub extern "C" fn heatcost_open(book: &mut [u32], sums: &mut [u64], sheet: &[u8]) -> u32
    ensures value { result ≡ answer_number (open_answer (lent book.old sums.old) sheet.now) }
    ensures sums_after { lent book.new sums.new ≡ opened (lent book.old sums.old) sheet.now }
{
    answer(yearbook::open(book, sums, sheet))
}

#[unsafe(no_mangle)]
pub extern "C" fn heatcost_post(book: &mut [u32], sums: &mut [u64], sheet: &[u8]) -> u32
    ensures value { result ≡ answer_number (post_answer (lent book.old sums.old) sheet.now) }
    ensures sums_after { lent book.new sums.new ≡ posted (lent book.old sums.old) sheet.now }
{
    answer(yearbook::post(book, sums, sheet))
}

#[unsafe(no_mangle)]
pub extern "C" fn heatcost_replace(book: &mut [u32], sums: &mut [u64], sheet: &[u8]) -> u32
    ensures value { result ≡ answer_number (replace_answer (lent book.old sums.old) sheet.now) }
    ensures sums_after { lent book.new sums.new ≡ replaced (lent book.old sums.old) sheet.now }
{
    answer(yearbook::replace(book, sums, sheet))
}

#[unsafe(no_mangle)]
pub extern "C" fn heatcost_withdraw(book: &mut [u32], sums: &mut [u64], month: u32) -> u32
    ensures value { result ≡ answer_number (withdraw_answer (lent book.old sums.old) month) }
    ensures sums_after { lent book.new sums.new ≡ withdrawn (lent book.old sums.old) month }
{
    answer(yearbook::withdraw(book, sums, month))
}

// k, then a unit's eight sums.
fn put_totals(year: &YearTotals, totals: &mut [u64])
    requires { length totals.old ≡ 9 }
    ensures { totals.new ≡ year.now.k ∷ year.now.sums }
{
    totals[0] = u64::from(year.k);
    totals[1..].copy_from_slice(&year.sums);
}

// 15, 13, 18, 19, then k and the sums.
fn year_into(book: &[u32], sums: &[u64], place: u32, totals: &mut [u64]) -> Result<(), Refusal>
    ensures value { result ≡ year_list_answer (lent book.now sums.now) place totals.old }
    ensures totals_after { totals.new ≡ year_list_after (lent book.now sums.now) place totals.old }
{
    if totals.len() != 9 {
        if yearbook::bad_book(book) {
            return Err(Refusal::BadYearBook);
        }
        return Err(Refusal::BufferLength);
    }
    let year = yearbook::year(book, sums, place)?;
    put_totals(&year, totals);
    Ok(())
}

// k and a unit's eight sums into a list of 9 numbers: 15, 13, 18, 19.
#[unsafe(no_mangle)]
pub extern "C" fn heatcost_year(book: &[u32], sums: &[u64], place: u32, totals: &mut [u64]) -> u32
    ensures value { result ≡ answer_number (year_list_answer (lent book.now sums.now) place totals.old) }
    ensures totals_after { totals.new ≡ year_list_after (lent book.now sums.now) place totals.old }
{
    answer(year_into(book, sums, place, totals))
}

// A group's answer: number + 256 × (place + 160 × building).
fn group_answer(outcome: Result<(), GroupRefusal>) -> u32
    requires { IfErr outcome (λ e. (place_of e.refusal < 160) × (e.building < 12)) }
    ensures { result ≡ group_number outcome }
{
    match outcome {
        Ok(()) => 0,
        Err(e) => e.number() + 256 * e.place() as u32,
    }
}

// The statement of a group's sheets, which lie in one buffer, into one list (2026-04).
#[unsafe(no_mangle)]
pub extern "C" fn heatcost_settle_group(
    sheets: &[u8],
    buildings: &[Building],
    reading: u64,
    statement: &mut [u32],
) -> u32
    ensures value { result ≡ group_number (group_answer newest sheets.now buildings.now reading statement.old) }
    ensures statement_after { statement.new ≡ group_after newest sheets.now buildings.now reading statement.old }
{
    group_answer(group::settle_group(sheets, buildings, reading, statement))
}

// The fixed charges of a sheet, amounts in cents, into a list of 3n numbers (2026-05).
#[unsafe(no_mangle)]
pub extern "C" fn heatcost_fixed_charges(
    sheet: &[u8],
    model: u32,
    power: u32,
    buyer: u32,
    supplier: u32,
    charges: &mut [u32],
) -> u32
    ensures value { result ≡ answer_number (charge_answer sheet.now model (amounts power buyer supplier) charges.old) }
    ensures charges_after { charges.new ≡ charges_after newest sheet.now model (amounts power buyer supplier) charges.old }
{
    let amounts = Amounts {
        power,
        buyer,
        supplier,
    };
    answer(charges::fixed_charges(sheet, model, amounts, charges))
}

// A month's fees into a fund, a balance in cents, at a rate in thousandths of a cent per m² (2026-07).
#[unsafe(no_mangle)]
pub extern "C" fn heatcost_collect_fees(fund: &mut u64, sheet: &[u8], rate: u32) -> u32
    ensures value { result ≡ answer_number (collect_answer fund.old sheet.now rate) }
    ensures fund_after { fund.new ≡ collected fund.old sheet.now rate }
{
    answer(fund::collect_fees(fund, sheet, rate))
}

// A decided amount in cents out of a fund (2026-07).
#[unsafe(no_mangle)]
pub extern "C" fn heatcost_pay_out(fund: &mut u64, amount: u64) -> u32
    ensures value { result ≡ answer_number (pay_answer fund.old amount) }
    ensures fund_after { fund.new ≡ paid_out fund.old amount }
{
    answer(fund::pay_out(fund, amount))
}
