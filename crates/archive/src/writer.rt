// The writer.
ghost use Rattle.std.specs.Prelude.{◌≡◌, ◌+◌, ◌*◌, ◌≤◌, IsOk, length};
ghost use Rattle.sheet.specs.RuleSets.{newest};
ghost use Rattle.sheet.specs.Layout.{sheet_of, in_bytes};
ghost use Rattle.sheet.specs.Check.{checked};
ghost use Rattle.archive.specs.Record.{archive_record};
ghost use Rattle.archive.specs.Writer.{write_answer, record_after};

use crate::head::NEWEST_HEAD;
use sheet::{Refusal, Sheet};

// Numbers of four bytes each.
fn put_numbers(numbers: &[u32], to: &mut [u8])
    requires { length to.old ≡ 4 * length numbers.now }
    ensures { to.new ≡ in_bytes numbers.now }
{
    for (i, number) in numbers.iter().enumerate() {
        to[4 * i..4 * i + 4].copy_from_slice(&number.to_le_bytes());
    }
}

// By a loop: a copy of unknown length would want `memmove`, which no other call needs (include/heatcost.h).
fn put_bytes(bytes: &[u8], to: &mut [u8])
    requires { length to.old ≡ length bytes.now }
    ensures { to.new ≡ bytes.now }
{
    for (i, &byte) in bytes.iter().enumerate() {
        to[i] = byte;
    }
}

// Head, sheet and statement into a list of their length.
fn put_record(sheet: &[u8], numbers: &[u32], out: &mut [u8])
    requires { length out.old ≡ 8 + length sheet.now + 4 * length numbers.now }
    ensures { out.new ≡ archive_record newest sheet.now numbers.now }
{
    let (head, body) = out.split_at_mut(8);
    let (part, statement) = body.split_at_mut(sheet.len());
    head.copy_from_slice(&NEWEST_HEAD);
    put_bytes(sheet, part);
    put_numbers(numbers, statement);
}

// 8 to 12 of a sheet of no more than N / 8 units, then 13, then the record.
fn write_with_room<const N: usize>(sheet: Sheet<'_>, out: &mut [u8]) -> Result<(), Refusal>
    requires room { (8 * (sheet_of sheet.bytes.now).unit_count ≤ N) × (N ≤ 1280) }
    requires passed { IsOk (checked 32 sheet.bytes.now) }
    ensures value { result ≡ write_answer sheet.entry.bytes.now out.old }
    ensures out_after { out.new ≡ record_after sheet.entry.bytes.now out.old }
{
    let mut room = [0u32; N];
    let numbers = &mut room[..8 * sheet.unit_count()];
    settlement::settle_checked(sheet::NEWEST, sheet, numbers)?;
    if out.len() != 8 + sheet.bytes.len() + 4 * numbers.len() {
        return Err(Refusal::BufferLength);
    }
    put_record(sheet.bytes, numbers, out);
    Ok(())
}

// The record of a sheet, by the newest rules, into a list of 56 + 64n bytes: 1 to 12, then 13. A refused call leaves the list as it was.
// Few units need little room.
pub fn write(sheet: &[u8], out: &mut [u8]) -> Result<(), Refusal>
    ensures value { result ≡ write_answer sheet.now out.old }
    ensures out_after { out.new ≡ record_after sheet.now out.old }
{
    let sheet = Sheet::check(sheet)?;
    if sheet.unit_count() <= 16 {
        return write_with_room::<128>(sheet, out);
    }
    write_with_room::<1280>(sheet, out)
}
