// The lines of a text, put into a sink.
ghost use Rattle.std.specs.Prelude.{◌≡◌, map, ◌++◌, ◌≤◌, length};
ghost use Rattle.printing.specs.Text.{decimal, line};
ghost use Rattle.printing.specs.Printed.{text_of, refusal_line};
ghost use Rattle.printing.specs.Inner.Lines.{first_line_of, unit_lines_of, month_lines};
ghost use Rattle.printing.specs.Inner.Outcomes.{settled_in};

use crate::settled::SettledMonth;
use crate::sink::Sink;
use sheet::{Refusal, Sheet, header, rows};

// A label and a number.
fn put_labelled<S: Sink>(sink: &mut S, label: &[u8], x: u64)
    requires { length (label.now ++ decimal x) ≤ S.left sink.old }
    ensures { S.took sink.old (label.now ++ decimal x) sink.new }
{
    sink.put(label);
    sink.put_number(x);
}

pub(crate) fn put_refusal<S: Sink>(sink: &mut S, refusal: Refusal)
    requires { length (refusal_line refusal) ≤ S.left sink.old }
    ensures { S.took sink.old (refusal_line refusal) sink.new }
{
    put_labelled(sink, b"refused ", u64::from(refusal.number()));
    put_labelled(sink, b" ", u64::from(refusal.place()));
    sink.put(b"\n");
}

// Month, n, M, bill.
fn put_first_line<S: Sink>(sink: &mut S, sheet: Sheet<'_>)
    requires { length (first_line_of sheet.bytes.now) ≤ S.left sink.old }
    ensures { S.took sink.old (first_line_of sheet.entry.bytes.now) sink.new }
{
    let month = u64::from(sheet.header(header::Field::Month));
    let count = u64::from(sheet.header(header::Field::UnitCount));
    let meter = u64::from(sheet.header(header::Field::SharedMeter));
    let bill = settlement::bill_cents(sheet);
    put_labelled(sink, b"month ", month);
    put_labelled(sink, b" units ", count);
    put_labelled(sink, b" wh ", meter);
    put_labelled(sink, b" cents ", bill);
    sink.put(b"\n");
}

// Id, four Wh, four cents.
fn put_unit<S: Sink>(sink: &mut S, id: u32, numbers: &[u32])
    requires { length (line (decimal id) (map decimal numbers.now)) ≤ S.left sink.old }
    ensures { S.took sink.old (line (decimal id) (map decimal numbers.now)) sink.new }
{
    sink.put_number(u64::from(id));
    for &number in numbers {
        put_labelled(sink, b" ", u64::from(number));
    }
    sink.put(b"\n");
}

fn put_units<S: Sink>(sink: &mut S, month: SettledMonth<'_>)
    requires { length (unit_lines_of month.sheet.bytes.now month.statement.now) ≤ S.left sink.old }
    ensures { S.took sink.old (unit_lines_of month.entry.sheet.bytes.now month.entry.statement.now) sink.new }
{
    for (row, numbers) in month.sheet.rows().zip(month.statement.chunks_exact(8)) {
        put_unit(sink, row.field(rows::Field::Id), numbers);
    }
}

fn put_month<S: Sink>(sink: &mut S, month: SettledMonth<'_>)
    requires { length (month_lines month.sheet.bytes.now month.statement.now) ≤ S.left sink.old }
    ensures { S.took sink.old (month_lines month.entry.sheet.bytes.now month.entry.statement.now) sink.new }
{
    put_first_line(sink, month.sheet);
    put_units(sink, month);
}

// The text of a settled or refused sheet. Inlined as `print_outcome` is.
#[inline(always)]
pub(crate) fn put_text<S: Sink>(sink: &mut S, outcome: Result<SettledMonth<'_>, Refusal>)
    requires { length (text_of (settled_in outcome)) ≤ S.left sink.old }
    ensures { S.took sink.old (text_of (settled_in outcome.entry)) sink.new }
{
    match outcome {
        Ok(month) => put_month(sink, month),
        Err(refusal) => put_refusal(sink, refusal),
    }
}
