// The list of sums: cleared, and an old block taken off it and a new one added.
ghost use Rattle.std.specs.Prelude.{◌≡◌, true, false, ◌≤◌, length, option_copied};
ghost use Rattle.year_sums.specs.YearSums.{sums_length, zero_sums, updated};
ghost use Rattle.year_sums.specs.Inner.Update.{old_or_zeros, past_an_end, some_past_an_end, SameLength, Blocks, Reach, AllFar, Updates};

use sheet::Refusal;

const SUMS: usize = 1280;

static ZEROS: [u32; SUMS] = [0; SUMS];

const UPPER_HALF: u64 = 1 << 63;

pub fn clear(sums: &mut [u64])
    requires { length sums.old ≡ sums_length }
    ensures { sums.new ≡ zero_sums }
{
    sums.fill(0);
}

// The block that is taken off: the old one, or one of zeros.
fn old_or_zeros(old: Option<&[u32]>) -> &[u32]
    ensures { result.now ≡ old_or_zeros (option_copied old.entry) }
{
    old.unwrap_or(&ZEROS)
}

// How many places an update reaches: `front`, if nothing is taken off behind it, else all.
fn reach(old: Option<&[u32]>, front: usize) -> usize
    requires { (length (old_or_zeros (option_copied old)) ≡ sums_length) × (front ≤ sums_length) }
    ensures { Reach (old_or_zeros (option_copied old.entry)) front result }
{
    let Some(old) = old else {
        return front;
    };
    let behind = old[front..].iter().fold(0, |bits, x| bits | x);
    if behind == 0 { front } else { SUMS }
}

// Whether all sums stay in the lower half of 64 bits when their old numbers are taken off: a number below zero would wrap to the upper half.
// Then there is room for any new numbers. Otherwise it says nothing.
fn far_from_ends(sums: &[u64], old: &[u32]) -> bool
    requires { length old.now ≡ length sums.now }
    ensures { result ≡ true → AllFar sums.now old.now }
{
    let bits = sums.iter().zip(old).fold(
        0,
        |bits, (&sum, &old)| bits | sum.wrapping_sub(u64::from(old)),
    );
    bits < UPPER_HALF
}

// Whether the sum would go below zero or past 64 bits.
fn past_an_end(sum: u64, old: u32, new: u32) -> bool
    ensures { result ≡ past_an_end sum old new }
{
    sum.checked_sub(u64::from(old))
        .and_then(|rest| rest.checked_add(u64::from(new)))
        .is_none()
}

// 19 by the numbers, place by place.
fn some_past_an_end(sums: &[u64], old: &[u32], new: &[u32]) -> bool
    ensures { result ≡ some_past_an_end sums.now old.now new.now }
{
    sums.iter()
        .zip(old)
        .zip(new)
        .any(|((&sum, &old), &new)| past_an_end(sum, old, new))
}

// The same, without a test a place where the sums are as they should be.
fn cannot_update(sums: &[u64], old: &[u32], new: &[u32]) -> bool
    requires { SameLength sums.now old.now new.now }
    ensures { result ≡ some_past_an_end sums.now old.now new.now }
{
    !far_from_ends(sums, old) && some_past_an_end(sums, old, new)
}

fn shift(sums: &mut [u64], old: &[u32], new: &[u32])
    requires long { SameLength sums.old old.now new.now }
    requires fits { some_past_an_end sums.old old.now new.now ≡ false }
    ensures { sums.new ≡ updated sums.old old.now new.now }
{
    for (k, sum) in sums.iter_mut().enumerate() {
        *sum = *sum - u64::from(old[k]) + u64::from(new[k]);
    }
}

// Takes the old block off, or nothing, and adds a block of n units. Where 19 refuses that it writes nothing.
pub fn update(sums: &mut [u64], old: Option<&[u32]>, new: &[u32], n: usize) -> Result<(), Refusal>
    requires { Blocks (old_or_zeros (option_copied old)) n new.now }
    ensures { Updates sums.old (old_or_zeros (option_copied old.entry)) new.now result sums.new }
{
    if sums.len() != SUMS {
        return Err(Refusal::BadYearSums);
    }
    let reached = reach(old, 8 * n);
    let front = &mut sums[..reached];
    let old = &old_or_zeros(old)[..reached];
    let new = &new[..reached];
    if cannot_update(front, old, new) {
        return Err(Refusal::BadYearSums);
    }
    shift(front, old, new);
    Ok(())
}
