// Reads records, each behind its length in 16 bits, and prints for each the refusal's number and place, or `0 0` where it is accepted, the length of the part handed back,
// and 1 where the record written anew from that part is the same, else 0.
#![tactic(auto)]

ghost use Rattle.std.specs.Prelude.{◌≤◌, length};

use std::io;

// No stored record is longer.
const LONGEST: usize = 10_400;

// 250,000 bytes hold no more records.
const MOST_RECORDS: usize = 125_000;

// Whether the sheet's record, in a list as long as the stored one, is the same.
fn is_written_anew(sheet: &[u8], stored: &[u8]) -> bool
    requires { length stored.now ≤ LONGEST }
{
    let mut bytes = [0u8; LONGEST];
    let list = &mut bytes[..stored.len()];
    archive::write(sheet, list).is_ok() && *list == *stored
}

fn answer(rt: &impl Print, stored: &[u8]) -> io::Result<()>
    requires { length stored.now ≤ LONGEST }
{
    console::answer(rt, archive::check(stored))?;
    let part = archive::sheet_of(stored);
    console::word(rt, part.len() as u64)?;
    console::word(rt, u64::from(is_written_anew(part, stored)))?;
    console::newline(rt)
}

fn main(rt: HostRuntime) -> io::Result<()> {
    console::each_input::<LONGEST, _>(&rt, MOST_RECORDS, |stored| answer(&rt, stored))
}
