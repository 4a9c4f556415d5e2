// Reads stored archive records of 248 bytes, which every later version must still read, and prints for each number, place and the length of its sheet: case A of version 1, then
// case C by risers of versions 1 and 2, which settle it differently, then a month with a tie of versions 2 and 3, which do so too.
#![tactic(auto)]

use std::io;

const RECORD: usize = 248;

const ALL: usize = 5 * RECORD;

// A longer input is told by one byte more.
const LONGEST: usize = ALL + 1;

fn print_record(rt: &impl Print, record: &[u8]) -> io::Result<()> {
    console::answer(rt, archive::check(record))?;
    let part = archive::sheet_of(record);
    console::word(rt, part.len() as u64)?;
    console::newline(rt)
}

// Nothing where the input is shorter or longer than all of them.
fn print_records(rt: &impl Print, bytes: &[u8]) -> io::Result<()> {
    if bytes.len() != ALL {
        return Ok(());
    }
    for record in bytes.chunks_exact(RECORD) {
        print_record(rt, record)?;
    }
    Ok(())
}

fn main(rt: HostRuntime) -> io::Result<()> {
    console::with_input::<LONGEST, _>(&rt, LONGEST, |bytes| print_records(&rt, bytes))
}
