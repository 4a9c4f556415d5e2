// Reads calls on funds: a kind in 8 bits and the balance in 64, then for kind 0, collecting, the rate in 32 bits and the sheet behind its length in 16, for kind 1,
// paying out, the amount in 64. Prints for each call number, place and the balance afterwards.
#![tactic(auto)]

use sheet::Refusal;
use std::io;

// No stored sheet is longer.
const LONGEST: usize = 5300;

// 120,000 bytes hold no more calls.
const MOST_CALLS: usize = 8_000;

const COLLECT: u8 = 0;

const PAY: u8 = 1;

fn next64(rt: &impl Input) -> io::Result<Option<u64>> {
    Ok(console::next(rt)?.map(u64::from_le_bytes))
}

fn print(rt: &impl Print, outcome: Result<(), Refusal>, balance: u64) -> io::Result<()> {
    console::answer(rt, outcome)?;
    console::word(rt, balance)?;
    console::newline(rt)
}

fn collect(rt: &(impl Input + Print), balance: u64) -> io::Result<()> {
    let rate = console::next(rt)?.map(u32::from_le_bytes);
    let size = console::next_up_to(rt, LONGEST)?;
    let (Some(rate), Some(size)) = (rate, size) else {
        return Ok(());
    };
    console::with_input::<LONGEST, _>(rt, size, |sheet| {
        let mut fund = balance;
        let outcome = fund::collect_fees(&mut fund, sheet, rate);
        print(rt, outcome, fund)
    })
}

fn pay(rt: &(impl Input + Print), balance: u64) -> io::Result<()> {
    let Some(amount) = next64(rt)? else {
        return Ok(());
    };
    let mut fund = balance;
    let outcome = fund::pay_out(&mut fund, amount);
    print(rt, outcome, fund)
}

// Ends at the input's end, or at another kind.
fn main(rt: HostRuntime) -> io::Result<()> {
    for _ in 0..MOST_CALLS {
        let kind = console::next(&rt)?.map(u8::from_le_bytes);
        let balance = next64(&rt)?;
        match (kind, balance) {
            (Some(COLLECT), Some(balance)) => collect(&rt, balance)?,
            (Some(PAY), Some(balance)) => pay(&rt, balance)?,
            _ => return Ok(()),
        }
    }
    Ok(())
}
