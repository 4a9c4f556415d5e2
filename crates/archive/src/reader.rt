// The reader: the check of a record, and the part of it that holds the sheet.
ghost use Rattle.std.specs.Prelude.{◌≡◌, ◌*◌, ◌≤◌, IfOk, length};
ghost use Rattle.sheet.specs.Layout.{sheet_of, in_bytes};
ghost use Rattle.sheet.specs.Refusals.{outcome_of, first_refusal};
ghost use Rattle.sheet.specs.Check.{same_list};
ghost use Rattle.archive.specs.Reader.{read_outcome, sheet_length, PartOf, SheetPart};
ghost use Rattle.archive.specs.Inner.Settled.{statement_rules};

use crate::head::head_of;
use sheet::{Refusal, RuleSet, Sheet};

// The bytes are the numbers, four bytes each.
fn same_statement(bytes: &[u8], numbers: &[u32]) -> bool
    requires { length bytes.now ≡ 4 * length numbers.now }
    ensures { result ≡ same_list bytes.now (in_bytes numbers.now) }
{
    let (fours, _) = bytes.as_chunks::<4>();
    fours
        .iter()
        .zip(numbers)
        .all(|(four, number)| *four == number.to_le_bytes())
}

// 8 to 12 of a sheet of no more than N / 8 units, then the statement that stands behind it.
fn check_with_room<const N: usize>(
    rules: RuleSet,
    sheet: Sheet<'_>,
    statement: &[u8],
) -> Result<(), Refusal>
    requires room { (8 * (sheet_of sheet.bytes.now).unit_count ≤ N) × (N ≤ 1280) }
    requires statement { length statement.now ≡ 32 * (sheet_of sheet.bytes.now).unit_count }
    ensures { result ≡ first_refusal (statement_rules rules (sheet_of sheet.entry.bytes.now) statement.now) }
{
    let mut room = [0u32; N];
    let numbers = &mut room[..8 * sheet.unit_count()];
    settlement::settle_checked(rules, sheet, numbers)?;
    if !same_statement(statement, numbers) {
        return Err(Refusal::BadArchive);
    }
    Ok(())
}

// Few units need little room.
fn check_statement(rules: RuleSet, sheet: Sheet<'_>, statement: &[u8]) -> Result<(), Refusal>
    requires { length statement.now ≡ 32 * (sheet_of sheet.bytes.now).unit_count }
    ensures { result ≡ first_refusal (statement_rules rules (sheet_of sheet.entry.bytes.now) statement.now) }
{
    if sheet.unit_count() <= 16 {
        return check_with_room::<128>(rules, sheet, statement);
    }
    check_with_room::<1280>(rules, sheet, statement)
}

// Any bytes: 14, 1 to 12, 14, by the rules of the head's version; and the very part that holds the sheet.
fn open<'a>(bytes: &'a [u8]) -> Result<&'a [u8], Refusal>
    ensures answer { outcome_of result ≡ read_outcome bytes.now }
    ensures part { IfOk result (λ part. PartOf part bytes.entry 8 (sheet_length bytes.now)) }
{
    let Some(rules) = head_of(bytes) else {
        return Err(Refusal::BadArchive);
    };
    let (sheet, statement) = Sheet::split_record(&bytes[8..])?;
    check_statement(rules, sheet, statement)?;
    Ok(&bytes[8..8 + sheet.bytes.len()])
}

// Any bytes: whether they are a record with the settlement of its sheet.
pub fn check(bytes: &[u8]) -> Result<(), Refusal>
    ensures { result ≡ read_outcome bytes.now }
{
    open(bytes)?;
    Ok(())
}

// The reader's answer, and the sheet as the very part of the record that holds it; on a refusal the empty part at the record's start.
#[derive(Clone, Copy)]
pub struct Reading<'a> {
    pub outcome: Result<(), Refusal>,
    pub sheet: &'a [u8],
}

// Any bytes: the check's outcome and the part, at one settling.
pub fn read<'a>(bytes: &'a [u8]) -> Reading<'a>
    ensures outcome_value { result.outcome ≡ read_outcome bytes.now }
    ensures sheet_part { SheetPart result.sheet bytes.entry }
{
    match open(bytes) {
        Ok(sheet) => Reading {
            outcome: Ok(()),
            sheet,
        },
        Err(refusal) => Reading {
            outcome: Err(refusal),
            sheet: &bytes[0..0],
        },
    }
}

// Any bytes: the part alone.
pub fn sheet_of<'a>(bytes: &'a [u8]) -> &'a [u8]
    ensures { SheetPart result bytes.entry }
{
    read(bytes).sheet
}
