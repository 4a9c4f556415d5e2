// Reads sheets, each behind its length in 16 bits, and prints for each the refusal's number and place, or `0 0` where it is accepted.
#![tactic(auto)]

use sheet::Sheet;
use std::io;

// No stored sheet is longer.
const LONGEST: usize = 5400;

// 250,000 bytes hold no more sheets.
const MOST_SHEETS: usize = 125_000;

fn answer(rt: &impl Print, sheet: &[u8]) -> io::Result<()> {
    console::answer(rt, Sheet::check(sheet))?;
    console::newline(rt)
}

fn main(rt: HostRuntime) -> io::Result<()> {
    console::each_input::<LONGEST, _>(&rt, MOST_SHEETS, |sheet| answer(&rt, sheet))
}
