// Who gets the leftover: without sorting, by a threshold that separates those who do from those who don't.
ghost use Rattle.std.specs.Prelude.{◌≡◌, [], true, ℕ, ◌+◌, ◌-◌, ◌^◌, ◌≤◌, ◌<◌, length, get_or};
ghost use Rattle.apportion.specs.Shares.{extras, added};
ghost use Rattle.apportion.specs.Inner.Selection.{Cuts, Collected, given, given_ties};

use super::narrowing::{Cut, Leftover};

#[derive(Clone, Copy)]
pub struct Bracket {
    pub lo: u64,
    pub hi: u64,
    // Keys that reach lo, as the counts say, which nothing is proved of.
    pub holds: u64,
    ghost ordered: { lo ≤ hi },
}

// How many keys lie above a bracket, and how many in it.
#[derive(Clone, Copy)]
pub struct Split {
    pub above: u64,
    pub within: u64,
}

impl Bracket {
    // Writes the keys from lo up to hi one after the other; if there are 128 or more, `near` is of no use. Which keys these are can't be
    // foreseen, so there is no branch: each key is written, and some stay.
    fn collect(self, keys: &[u64], near: &mut [u64; 128]) -> Split
        ensures { Collected self.lo self.hi result.above result.within near.new keys.now }
    {
        let mut above = 0;
        let mut within = 0;
        for &k in keys {
            near[(within % 128) as usize] = k;
            let past = u64::from(self.hi <= k);
            within += u64::from(self.lo <= k) - past;
            above += past;
        }
        Split { above, within }
    }
}

// How many keys each bracket holds.
fn tally(keys: &[u64], shift: u32, counts: &mut [u32; 64])
    requires { shift < 64 }
{
    for &k in keys {
        let b = ((k >> shift) % 64) as usize;
        counts[b] = counts[b].wrapping_add(1);
    }
}

// The highest of the 64 that is reached by `left` keys.
fn highest(counts: &[u32; 64], left: u64) -> u64
    ensures { result < 64 }
{
    let mut above = 0;
    for (b, &count) in counts.iter().enumerate().rev() {
        above += u64::from(count);
        if left <= above {
            return b as u64;
        }
    }
    0
}

impl Split {
    // Whether the threshold lies in the bracket, and the keys in it have all been written.
    fn catches(self, left: u64) -> bool
        ensures { result ≡ true → (self.within < 128) × (self.above < left) × (left ≤ self.above + self.within) }
    {
        self.within < 128 && self.above < left && left - self.above <= self.within
    }
}

impl<'a> Leftover<'a> {
    // Where the threshold lies, by counts of the keys in 64 brackets: keys that differ only below the six highest bits of the largest share
    // one. It is a guess that the caller tests.
    fn around(&self) -> Bracket
        ensures { (self.now.lo ≤ result.lo) × (result.hi ≤ self.now.hi) }
    {
        let shift = 58u32.saturating_sub((self.hi - 1).leading_zeros());
        let mut counts = [0; 64];
        tally(self.keys, shift, &mut counts);
        let b = highest(&counts, self.left);
        let lo = (b << shift).clamp(self.lo, self.hi);
        // The first bracket's count has the keys below lo too, which are zeros.
        let zeros = if b == 0 {
            (self.keys.len() as u64).saturating_sub(self.reach)
        } else {
            0
        };
        Bracket {
            lo,
            hi: ((b + 1) << shift).clamp(lo, self.hi),
            holds: u64::from(counts[b as usize]).saturating_sub(zeros),
        }
    }

    // The threshold from the keys near it where that can be done, else from all keys.
    fn threshold_near(&mut self, near: &mut [u64; 128]) -> Cut
        ensures { Cuts self.old.left result.theta result.spare self.old.keys.now }
    {
        let bracket = self.around();
        if 128 <= bracket.holds {
            return self.narrow();
        }
        let split = bracket.collect(self.keys, near);
        if !split.catches(self.left) {
            return self.narrow();
        }
        let mut few = Leftover {
            keys: &near[..split.within as usize],
            left: self.left - split.above,
            lo: bracket.lo,
            hi: bracket.hi,
            reach: split.within,
            past: 0,
        };
        few.narrow()
    }

    pub(crate) fn threshold(&self) -> Cut
        ensures { Cuts self.now.left result.theta result.spare self.now.keys.now }
    {
        let mut all = *self;
        if all.reach < 12 {
            return all.narrow();
        }
        let mut near = [0; 128];
        all.threshold_near(&mut near)
    }

    // The leftover goes one each to the largest keys, of equal keys to the earlier item.
    pub(crate) fn give(&self, out: &mut [u32])
        requires { (length out.old ≡ length self.now.keys.now) × ((j : ℕ) → get_or out.old j 0 < 2 ^ 32 - 2) }
        ensures { out.new ≡ added out.old (extras self.now.left [] self.now.keys.now) }
    {
        let cut = self.threshold();
        give_cut(self.keys, cut, out);
    }
}

// One more for each key above the threshold, and for the earliest of those at it, while there is one to spare.
#[tactic(auto, using(crate::proofs::Giving::one_each))]
pub(crate) fn give_cut(keys: &[u64], cut: Cut, out: &mut [u32])
    requires { (length out.old ≡ length keys.now) × ((j : ℕ) → get_or out.old j 0 < 2 ^ 32 - 2) }
    ensures { out.new ≡ added out.old (given cut.theta cut.spare keys.now) }
{
    give_above(keys, cut.theta, out);
    give_ties(keys, cut, out);
}

// One more for each key above theta.
pub(crate) fn give_above(keys: &[u64], theta: u64, out: &mut [u32])
    requires { (length out.old ≡ length keys.now) × ((j : ℕ) → get_or out.old j 0 < 2 ^ 32 - 1) }
    ensures { out.new ≡ added out.old (given theta 0 keys.now) }
{
    for (i, &k) in keys.iter().enumerate() {
        out[i] += u32::from(theta < k);
    }
}

// One more for the earliest of the keys at theta, while there is one to spare.
fn give_ties(keys: &[u64], cut: Cut, out: &mut [u32])
    requires { (length out.old ≡ length keys.now) × ((j : ℕ) → get_or out.old j 0 < 2 ^ 32 - 1) }
    ensures { out.new ≡ added out.old (given_ties cut.theta cut.spare keys.now) }
{
    let mut left = cut.spare;
    for (i, &k) in keys.iter().enumerate() {
        if left == 0 {
            return;
        }
        let one = u32::from(k == cut.theta);
        out[i] += one;
        left -= u64::from(one);
    }
}
