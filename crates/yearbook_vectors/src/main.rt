// Reads calls on one book of 15,557 numbers and on the sums beside it, and prints for each the number and place, for a year call also k and the eight sums,
// then the book and all sums afterwards as a number each. There are 1,281 sums, of which a call is lent the first 1,280, or as many as were told last.
// A call is its kind in 8 bits, then 0 open, 1 post, 2 replace: a length in 16 bits and that many bytes; 3 withdraw: a month, 4 year: a place, in 32 bits;
// 6 writes one of the sums: its place in 16 bits and the number in 64; 7 tells how many sums are lent, in 16 bits;
// any other kind writes a number of the book: its place and the number, in 16 bits each.
#![tactic(auto)]

ghost use Rattle.std.specs.Prelude.{◌≤◌};
ghost use Rattle.yearbook_vectors.specs.declared.TheConstants.{ALL_SUMS};

use sheet::Refusal;
use std::io;

// No stored sheet is longer.
const LONGEST: usize = 5400;

// 250,000 bytes hold no more calls.
const MOST_CALLS: usize = 125_000;

// One more than a call should be lent.
const ALL_SUMS: usize = 1281;

// What a call does, by its first byte.
enum Kind {
    Open,
    Post,
    Replace,
    Withdraw,
    Year,
    SetSum,
    SetLent,
    SetNumber,
}

impl From<u8> for Kind {
    fn from(byte: u8) -> Kind {
        match byte {
            0 => Kind::Open,
            1 => Kind::Post,
            2 => Kind::Replace,
            3 => Kind::Withdraw,
            4 => Kind::Year,
            6 => Kind::SetSum,
            7 => Kind::SetLent,
            _ => Kind::SetNumber,
        }
    }
}

// 0 where the input no longer has the number.
fn next32(rt: &impl Input) -> io::Result<u32> {
    Ok(u32::from_le_bytes(console::next(rt)?.unwrap_or([0; 4])))
}

// The book, the sums beside it, and how many of them a call is lent.
#[derive(Drop)]
struct Lists {
    book: [u32; 15_557],
    sums: [u64; ALL_SUMS],
    lent: usize,
    ghost in_range: { lent ≤ ALL_SUMS },
}

impl Lists {
    // A call with a sheet. Nothing where its length is missing or too long.
    fn bring<F: FnOnce(&mut [u32], &mut [u64], &[u8]) -> Result<(), Refusal>>(
        &mut self,
        rt: &(impl Input + Print),
        call: F,
    ) -> io::Result<()>
        requires { F.IsAlwaysCallable call }
    {
        let Some(length) = console::next_up_to(rt, LONGEST)? else {
            return Ok(());
        };
        let lent = self.lent;
        let (book, sums) = (&mut self.book[..], &mut self.sums[..]);
        let sums = &mut sums[..lent];
        console::with_input::<LONGEST, _>(rt, length, |sheet| {
            console::answer(rt, call(book, sums, sheet))
        })
    }

    fn withdraw(&mut self, rt: &(impl Input + Print)) -> io::Result<()> {
        let month = next32(rt)?;
        let lent = self.lent;
        let sums = &mut self.sums[..];
        console::answer(
            rt,
            yearbook::withdraw(&mut self.book, &mut sums[..lent], month),
        )
    }

    fn print_year(&self, rt: &(impl Input + Print)) -> io::Result<()> {
        let place = next32(rt)?;
        let totals = yearbook::year(&self.book, &self.sums[..self.lent], place);
        console::answer(rt, totals)?;
        // Zeros behind a refusal.
        let totals = totals.unwrap_or_default();
        console::word(rt, u64::from(totals.k))?;
        for sum in totals.sums {
            console::word(rt, sum)?;
        }
        Ok(())
    }

    // A number that the input no longer has is written as 65,536.
    fn set_number(&mut self, rt: &(impl Input + Print)) -> io::Result<()> {
        let place = console::next(rt)?.map(u16::from_le_bytes);
        let x = console::next(rt)?.map(u16::from_le_bytes);
        let Some(place) = place else {
            return Ok(());
        };
        let Some(number) = self.book.get_mut(usize::from(place)) else {
            return Ok(());
        };
        *number = x.map_or(65_536, u32::from);
        rt.print("set")
    }

    // A half of the number that the input no longer has is written as 0.
    fn set_sum(&mut self, rt: &(impl Input + Print)) -> io::Result<()> {
        let place = console::next(rt)?.map(u16::from_le_bytes);
        let low = u64::from(next32(rt)?);
        let high = u64::from(next32(rt)?);
        let Some(place) = place else {
            return Ok(());
        };
        let Some(sum) = self.sums.get_mut(usize::from(place)) else {
            return Ok(());
        };
        *sum = low + 4_294_967_296 * high;
        rt.print("sum")
    }

    fn set_lent(&mut self, rt: &(impl Input + Print)) -> io::Result<()> {
        let Some(lent) = console::next_up_to(rt, ALL_SUMS)? else {
            return Ok(());
        };
        self.lent = lent;
        rt.print("count")
    }

    fn call(&mut self, rt: &(impl Input + Print), kind: Kind) -> io::Result<()> {
        match kind {
            Kind::Open => self.bring(rt, |book, sums, sheet| yearbook::open(book, sums, sheet)),
            Kind::Post => self.bring(rt, |book, sums, sheet| yearbook::post(book, sums, sheet)),
            Kind::Replace => self.bring(
                rt,
                |book, sums, sheet| yearbook::replace(book, sums, sheet),
            ),
            Kind::Withdraw => self.withdraw(rt),
            Kind::Year => self.print_year(rt),
            Kind::SetSum => self.set_sum(rt),
            Kind::SetLent => self.set_lent(rt),
            Kind::SetNumber => self.set_number(rt),
        }
    }
}

fn main(rt: HostRuntime) -> io::Result<()> {
    let mut lists = Lists {
        book: [0; 15_557],
        sums: [0; ALL_SUMS],
        lent: 1280,
    };
    for _ in 0..MOST_CALLS {
        let Some(kind) = console::next(&rt)?.map(u8::from_le_bytes) else {
            return Ok(());
        };
        lists.call(&rt, Kind::from(kind))?;
        console::word(&rt, console::digest(&lists.book))?;
        console::word(&rt, console::digest(&lists.sums))?;
        console::newline(&rt)?;
    }
    Ok(())
}
