// The threshold that separates the keys that get one of the leftover from those that don't, by counting passes that narrow a bracket.
ghost use Rattle.std.specs.Prelude.{◌≡◌, ◌+◌, ◌^◌, ◌≤◌, ◌<◌};
ghost use Rattle.apportion.specs.Shares.{at_least};
ghost use Rattle.apportion.specs.Inner.Selection.{largest, Counted, Cuts};

// How many keys reach a number m. No key lies from `below` up to m, nor from m up to `above`.
#[derive(Clone, Copy)]
pub struct Count {
    pub count: u64,
    pub below: u64,
    pub above: u64,
}

// A threshold, and how many are to be spared for the keys that equal it.
#[derive(Clone, Copy)]
pub struct Cut {
    pub theta: u64,
    pub spare: u64,
}

// One each for the `left` largest of some keys. The least of these is from lo up to hi: `reach` keys reach lo, which are enough, and `past`
// keys hi, which are too few.
#[derive(Clone, Copy)]
pub struct Leftover<'a> {
    pub keys: &'a [u64],
    pub left: u64,
    pub lo: u64,
    pub hi: u64,
    pub reach: u64,
    pub past: u64,
    ghost ordered: { lo < hi },
    ghost counted: { (reach ≡ at_least lo keys.now) × (past ≡ at_least hi keys.now) },
    ghost between: { (past < left) × (left ≤ reach) },
}

impl<'a> Leftover<'a> {
    // `positive` keys are not 0.
    #[tactic(auto, using(crate::proofs::Counting::no_higher, crate::proofs::Counting::largest_positive))]
    pub(crate) fn new(keys: &'a [u64], left: u64, top: u64, positive: u64) -> Leftover<'a>
        requires { (0 < left) × (left ≤ positive) × (positive ≡ at_least 1 keys.now) × (top ≡ largest keys.now) × (top < 2 ^ 62) }
        ensures { (result.keys.now ≡ keys.now) × (result.left ≡ left) }
    {
        Leftover {
            keys,
            left,
            lo: 1,
            hi: top + 1,
            reach: positive,
            past: 0,
        }
    }

    #[tactic(auto, using(crate::proofs::Counting::so_far_le))]
    fn count_around(&self, m: u64) -> Count
        requires { (self.now.lo ≤ m) × (m ≤ self.now.hi) }
        ensures { Counted m self.now.lo self.now.hi result.count result.below result.above self.now.keys.now }
    {
        let mut c = Count {
            count: 0,
            below: self.lo,
            above: self.hi,
        };
        for &k in self.keys {
            if k < m {
                c.below = c.below.max(k + 1);
            } else {
                c.count += 1;
                c.above = c.above.min(k);
            }
        }
        c
    }

    // A number between lo and hi. Remainders are mostly spread evenly, so the first turns interpolate; the later ones halve, so that there
    // are never many.
    fn guess(&self, turn: u64) -> u64
        requires { self.now.lo + 1 < self.now.hi }
        ensures { (self.now.lo < result) × (result < self.now.hi) }
    {
        let width = self.hi - self.lo;
        if 6 <= turn {
            return self.lo + width / 2;
        }
        let share = width / (self.reach - self.past) * (self.left - self.past);
        (self.hi - share).clamp(self.lo + 1, self.hi - 1)
    }

    // Narrows the bracket around the threshold, until a count is the one wanted or the bracket holds one number.
    pub(crate) fn narrow(&mut self) -> Cut
        ensures cuts { Cuts self.old.left result.theta result.spare self.old.keys.now }
        ensures from_le_theta { (self.old.lo ≤ result.theta) × (result.theta < self.old.hi) }
    {
        let mut turn = 0;
        while 1 < self.hi - self.lo {
            let m = self.guess(turn);
            let c = self.count_around(m);
            turn += 1;
            if c.count == self.left {
                return Cut {
                    theta: m - 1,
                    spare: 0,
                };
            }
            if self.left < c.count {
                self.lo = c.above;
                self.reach = c.count;
            } else {
                self.hi = c.below;
                self.past = c.count;
            }
        }
        Cut {
            theta: self.lo,
            spare: self.left - self.past,
        }
    }
}
