// Reads group calls, each behind the length of its bytes in 16 bits: the count of buildings in 8 bits, for each its offset and length and last the shared
// reading in 64 bits each, the count of the list's numbers in 16 bits, and the buffer with the sheets. The list held 1, 2, 3 and so on. Prints for each
// number and place and the list afterwards: number by number where the call is accepted and the list has at most 64, else as one number.
#![tactic(auto)]

ghost use Rattle.std.specs.Prelude.{◌≤◌, length};

use group::{Building, GroupRefusal};
use std::io;

// No stored call is longer.
const LONGEST: usize = 15_999;

// No list is longer.
const MOST_NUMBERS: usize = 2561;

// The count of a call's buildings has 8 bits.
const MOST_BUILDINGS: usize = 255;

// 250,000 bytes hold no more calls.
const MOST_CALLS: usize = 125_000;

fn print_refusal(rt: &impl Print, e: GroupRefusal) -> io::Result<()> {
    console::number(rt, u64::from(e.number()))?;
    console::word(rt, e.place())
}

const NO_BUILDING: Building = Building {
    offset: 0,
    length: 0,
};

fn next64(rt: &impl Input) -> io::Result<Option<u64>> {
    Ok(console::next(rt)?.map(u64::from_le_bytes))
}

fn next_building(rt: &impl Input) -> io::Result<Option<Building>> {
    let (Some(offset), Some(length)) = (next64(rt)?, next64(rt)?) else {
        return Ok(None);
    };
    Ok(Some(Building { offset, length }))
}

// Nothing where the input doesn't have them all.
fn next_buildings(rt: &impl Input, count: usize) -> io::Result<Option<[Building; MOST_BUILDINGS]>>
    requires { count ≤ MOST_BUILDINGS }
{
    let mut buildings = [NO_BUILDING; MOST_BUILDINGS];
    for building in buildings[..count].iter_mut() {
        let Some(next) = next_building(rt)? else {
            return Ok(None);
        };
        *building = next;
    }
    Ok(Some(buildings))
}

fn answer(
    rt: &impl Print,
    buffer: &[u8],
    buildings: &[Building],
    reading: u64,
    list: &mut [u32],
) -> io::Result<()>
    requires { length list.old ≤ MOST_NUMBERS }
{
    console::count_up(list);
    match group::settle_group(buffer, buildings, reading, list) {
        Ok(()) => {
            rt.print("0 0")?;
            console::print_settled(rt, list)?;
        }
        Err(e) => {
            print_refusal(rt, e)?;
            console::word(rt, console::digest(list))?;
        }
    }
    console::newline(rt)
}

// Passes over a call that ends before its buffer, has no room for it or has too long a list.
fn answer_next(rt: &(impl Input + Print), length: usize) -> io::Result<()>
    requires { length ≤ LONGEST }
{
    let Some(count) = console::next(rt)?.map(u8::from_le_bytes) else {
        return Ok(());
    };
    let count = usize::from(count);
    let buildings = next_buildings(rt, count)?;
    let reading = next64(rt)?;
    let numbers = console::next_up_to(rt, MOST_NUMBERS)?;
    let (Some(buildings), Some(reading), Some(numbers)) = (buildings, reading, numbers) else {
        return Ok(());
    };
    let before = 11 + 16 * count;
    if length < before {
        return Ok(());
    }
    let mut list = [0u32; MOST_NUMBERS];
    let list = &mut list[..numbers];
    console::with_input::<LONGEST, _>(rt, length - before, |buffer| {
        answer(rt, buffer, &buildings[..count], reading, list)
    })
}

fn main(rt: HostRuntime) -> io::Result<()> {
    console::each_length(&rt, MOST_CALLS, LONGEST, |length| answer_next(&rt, length))
}
