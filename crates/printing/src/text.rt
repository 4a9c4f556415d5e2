// The text of any bytes into a lent list.
ghost use Rattle.std.specs.Prelude.{◌≡◌, ◌*◌, ◌≤◌, IsOk, length};
ghost use Rattle.sheet.specs.RuleSets.{newest};
ghost use Rattle.sheet.specs.Check.{checked};
ghost use Rattle.month.specs.Month.{settled_sheet};
ghost use Rattle.printing.specs.Printed.{text_of, printed, longest, at_front};
ghost use Rattle.printing.specs.Inner.Placed.{AreBytes};
ghost use Rattle.printing.specs.Inner.Outcomes.{settled_in};

use crate::render::put_text;
use crate::settled::SettledMonth;
use crate::sink::{Counter, Writer};
use sheet::{Refusal, Sheet};

// The longest text, of 160 units.
pub const LONGEST: usize = 49 + 99 * 160;

// The text of a settled or refused sheet: how long it is. Inlined, so that a refusal isn't printed by a month's code.
#[inline(always)]
fn print_outcome(outcome: Result<SettledMonth<'_>, Refusal>, text: &mut [u8]) -> usize
    ensures value { (result ≡ length (text_of (settled_in outcome.entry))) × (result ≤ longest (settled_in outcome.entry)) }
    ensures text_after { text.new ≡ at_front (text_of (settled_in outcome.entry)) text.old }
{
    let mut counter = Counter { len: 0 };
    put_text(&mut counter, outcome);
    let len = counter.len;
    if text.len() < len {
        return len;
    }
    let mut writer = Writer { text, at: 0 };
    put_text(&mut writer, outcome);
    len
}

// A sheet that passes 1 to 7: only such a sheet pays for the room.
fn print_checked(sheet: Sheet<'_>, text: &mut [u8]) -> usize
    requires bytes { AreBytes sheet.bytes.now }
    requires passed { IsOk (checked 32 sheet.bytes.now) }
    ensures value { (result ≡ length (printed sheet.entry.bytes.now)) × (result ≤ longest (settled_sheet newest sheet.entry.bytes.now)) }
    ensures text_after { text.new ≡ at_front (printed sheet.entry.bytes.now) text.old }
{
    let mut room = [0u32; 1280];
    print_outcome(SettledMonth::settle(sheet, &mut room), text)
}

// Any bytes: how long their text is. A list at least as long has it at its front, a shorter one keeps its contents.
pub fn print(sheet: &[u8], text: &mut [u8]) -> usize
    ensures value { (result ≡ length (printed sheet.now)) × (result ≤ longest (settled_sheet newest sheet.now)) }
    ensures text_after { text.new ≡ at_front (printed sheet.now) text.old }
{
    match Sheet::check(sheet) {
        Ok(sheet) => print_checked(sheet, text),
        Err(refusal) => print_outcome(Err(refusal), text),
    }
}
