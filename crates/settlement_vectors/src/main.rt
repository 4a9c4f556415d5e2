// Reads sheets, each behind its length in 16 bits. Prints for each what `statement` prints, then what the settle call answers for lists of
// 8n, 8n + 1 and 8n − 1 numbers that held nines: the length, number and place, and the list afterwards as one number.
#![tactic(auto)]

ghost use Rattle.std.specs.Prelude.{◌≤◌};

use std::io;

// No stored sheet is longer.
const LONGEST: usize = 5400;

// 250,000 bytes hold no more sheets.
const MOST_SHEETS: usize = 125_000;

fn settle(rt: &impl Print, sheet: &[u8], length: usize) -> io::Result<()>
    requires { length ≤ 1281 }
{
    let mut numbers = [9u32; 1281];
    let list = &mut numbers[..length];
    rt.print("list")?;
    console::word(rt, length as u64)?;
    rt.print(" ")?;
    console::answer(rt, settlement::settle(sheet, list))?;
    console::word(rt, console::digest(list))?;
    console::newline(rt)
}

// n as the sheet has it, at most 160; 0 where it has none.
fn unit_count(sheet: &[u8]) -> usize
    ensures { result ≤ 160 }
{
    match sheet.get(8..10) {
        Some([low, high]) => usize::from(u16::from_le_bytes([*low, *high])).min(160),
        _ => 0,
    }
}

fn answer(rt: &impl Print, sheet: &[u8]) -> io::Result<()> {
    program::print(rt, sheet)?;
    let length = 8 * unit_count(sheet);
    settle(rt, sheet, length)?;
    settle(rt, sheet, length + 1)?;
    settle(rt, sheet, length.saturating_sub(1))
}

fn main(rt: HostRuntime) -> io::Result<()> {
    console::each_input::<LONGEST, _>(&rt, MOST_SHEETS, |sheet| answer(&rt, sheet))
}
