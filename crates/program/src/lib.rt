// The program `statement` (document 01, "Printing"): reads a sheet, prints its text.
#![tactic(auto)]

ghost use Rattle.std.specs.Prelude.{◌≡◌};
ghost use Rattle.printing.specs.Printed.{printed};

use std::io;

// One byte more than the longest sheet: a longer input prints what its first 5,169 bytes print.
const ROOM: usize = 5169;

// Takes only the text of the bytes beside it.
fn write_text(rt: &impl Print, sheet: &[u8], text: &[u8]) -> io::Result<()>
    requires { text.now ≡ printed sheet.now }
{
    rt.write_all(text)
}

// The text of these bytes on standard output; an error where not all of it was written.
pub fn print(rt: &impl Print, sheet: &[u8]) -> io::Result<()> {
    let mut text = [0u8; printing::LONGEST];
    let n = printing::print(sheet, &mut text);
    write_text(rt, sheet, &text[..n])
}

// A failure is a line on standard error, and the status stays 0.
pub fn run(rt: &(impl Input + Print + Eprint)) {
    let mut buffer = [0u8; ROOM];
    let Ok(n) = console::read_full(rt, &mut buffer) else {
        let _ = rt.eprint("statement: the input can't be read\n");
        return;
    };
    if print(rt, &buffer[..n]).is_err() {
        let _ = rt.eprint("statement: the text can't be written\n");
    }
}
