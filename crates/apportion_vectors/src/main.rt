// Divides each vector of standard input with the library and prints its shares on two lines: ties to the earlier item, then to the
// larger weight. A vector is a count (u16), a total (u32) and as many weights (u64) as the count says, all little-endian.
#![tactic(auto)]

ghost use Rattle.std.specs.Prelude.{true, ◌≡◌, ◌-◌, ◌^◌, ◌≤◌, ◌<◌, IfOk, IfSome, length};
ghost use Rattle.apportion.specs.Shares.{sum};

use apportion::TieRule;
use std::io;

// What does not fit is not read.
const ROOM: usize = 65_536;

const MOST_WEIGHTS: usize = 640;

// No total reaches this.
const TOTAL_LIMIT: u32 = 4_294_967_295;

// No sum of weights reaches this.
const SUM_LIMIT: u64 = 4_611_686_018_427_387_904;

// None where it does not fit.
fn checked_sum(ws: &[u64]) -> Option<u64>
    ensures { IfSome result (λ s. s ≡ sum ws.now) }
{
    ws.iter().try_fold(0u64, |sum, &w| sum.checked_add(w))
}

// Whether the library takes this division.
fn is_admitted(total: u32, ws: &[u64]) -> bool
    ensures { result ≡ true → (total < 2 ^ 32 - 1) × (sum ws.now < 2 ^ 62) × (sum ws.now ≡ 0 → total ≡ 0) }
{
    let Some(sum) = checked_sum(ws) else {
        return false;
    };
    total < TOTAL_LIMIT && sum < SUM_LIMIT && (total == 0 || 0 < sum)
}

// The total of the first vector, its weights in bytes, and what follows it. None where it has none, too many or not all.
fn first_vector(s: &[u8]) -> Option<(u32, &[[u8; 8]], &[u8])>
    ensures { IfSome result (λ v. (length v.1.now ≤ MOST_WEIGHTS) × (length v.2.now < length s.now)) }
{
    let (count, rest) = s.split_first_chunk()?;
    let (total, rest) = rest.split_first_chunk()?;
    let count = usize::from(u16::from_le_bytes(*count));
    if count == 0 || MOST_WEIGHTS < count {
        return None;
    }
    let (weights, rest) = rest.split_at_checked(8 * count)?;
    let (weights, _) = weights.as_chunks();
    Some((u32::from_le_bytes(*total), weights, rest))
}

fn print_shares(rt: &impl Print, shares: &[u32]) -> io::Result<()> {
    if let Some((first, rest)) = shares.split_first() {
        console::number(rt, u64::from(*first))?;
        for share in rest {
            console::word(rt, u64::from(*share))?;
        }
    }
    console::newline(rt)
}

// Divides the first vector of `s` by both rules for ties and prints the shares. What follows it, or none where it is bad.
fn divide<'a>(rt: &impl Print, s: &'a [u8]) -> io::Result<Option<&'a [u8]>>
    ensures { IfOk result (λ v. IfSome v (λ rest. length rest.now < length s.now)) }
{
    let Some((total, weights, rest)) = first_vector(s) else {
        return Ok(None);
    };
    let count = weights.len();
    let mut ws = [0u64; MOST_WEIGHTS];
    let mut scratch = [0u64; MOST_WEIGHTS];
    let mut out = [0u32; MOST_WEIGHTS];
    let (ws, scratch, out) = (&mut ws[..count], &mut scratch[..count], &mut out[..count]);
    for (w, bytes) in ws.iter_mut().zip(weights) {
        *w = u64::from_le_bytes(*bytes);
    }
    if !is_admitted(total, ws) {
        return Ok(None);
    }
    for ties in [TieRule::EarlierFirst, TieRule::LargerFirst] {
        apportion::apportion(ties, u64::from(total), ws, scratch, out);
        print_shares(rt, out)?;
    }
    Ok(Some(rest))
}

// Divides the vectors in order, as far as the first bad one.
fn divide_all(rt: &impl Print, s: &[u8]) -> io::Result<()> {
    let mut rest = s;
    while !rest.is_empty() {
        let Some(others) = divide(rt, rest)? else {
            return rt.print("bad vector\n");
        };
        rest = others;
    }
    Ok(())
}

fn main(rt: HostRuntime) -> io::Result<()> {
    console::with_input::<ROOM, _>(&rt, ROOM, |s| divide_all(&rt, s))
}
