// Reads calls of fixed charges, each behind the length of its bytes in 16 bits: the call's model and the amounts, power, buyer's and supplier's fee, in 32 bits each,
// the count of the list's numbers in 16 bits, and the sheet. The list held 1, 2, 3 and so on. Prints for each number and place and the list afterwards: number
// by number where the call is accepted and the list has at most 64, else as one number.
#![tactic(auto)]

ghost use Rattle.std.specs.Prelude.{◌≤◌, length};

use charges::Amounts;
use std::io;

// No stored call is longer.
const LONGEST: usize = 5300;

// No list is longer.
const MOST_NUMBERS: usize = 481;

// 120,000 bytes hold no more calls.
const MOST_CALLS: usize = 60_000;

// The bytes of a call before its sheet.
const HEADER: usize = 18;

fn next32(rt: &impl Input) -> io::Result<Option<u32>> {
    Ok(console::next(rt)?.map(u32::from_le_bytes))
}

fn next_amounts(rt: &impl Input) -> io::Result<Option<Amounts>> {
    let power = next32(rt)?;
    let buyer = next32(rt)?;
    let supplier = next32(rt)?;
    let (Some(power), Some(buyer), Some(supplier)) = (power, buyer, supplier) else {
        return Ok(None);
    };
    Ok(Some(Amounts {
        power,
        buyer,
        supplier,
    }))
}

fn answer(
    rt: &impl Print,
    sheet: &[u8],
    model: u32,
    amounts: Amounts,
    list: &mut [u32],
) -> io::Result<()>
    requires { length list.old ≤ MOST_NUMBERS }
{
    console::count_up(list);
    let outcome = charges::fixed_charges(sheet, model, amounts, list);
    console::answer(rt, outcome)?;
    match outcome {
        Ok(()) => console::print_settled(rt, list)?,
        Err(_) => console::word(rt, console::digest(list))?,
    }
    console::newline(rt)
}

// Passes over a call that ends before its sheet, has no room for it or has too long a list.
fn answer_next(rt: &(impl Input + Print), length: usize) -> io::Result<()>
    requires { length ≤ LONGEST }
{
    let model = next32(rt)?;
    let amounts = next_amounts(rt)?;
    let numbers = console::next_up_to(rt, MOST_NUMBERS)?;
    let size = length.checked_sub(HEADER);
    let (Some(model), Some(amounts), Some(numbers), Some(size)) = (model, amounts, numbers, size)
    else {
        return Ok(());
    };
    let mut list = [0u32; MOST_NUMBERS];
    let list = &mut list[..numbers];
    console::with_input::<LONGEST, _>(rt, size, |sheet| {
        answer(rt, sheet, model, amounts, list)
    })
}

fn main(rt: HostRuntime) -> io::Result<()> {
    console::each_length(&rt, MOST_CALLS, LONGEST, |length| answer_next(&rt, length))
}
