// The exact quotient and remainder of t × w / W beyond 64 bits, by one machine division.
ghost use Rattle.std.specs.Prelude.{◌≡◌, ◌+◌, ◌*◌, ◌/◌, ◌%◌, ◌^◌, ◌≤◌, ◌<◌};

#[derive(Clone, Copy)]
pub struct Division {
    pub quotient: u64,
    pub remainder: u64,
}

// W, and by how much it can be shifted up and stay below 2^62.
#[derive(Clone, Copy)]
pub struct Divisor {
    pub whole: u64,
    shift: u32,
    ghost positive: { 0 < whole },
    ghost shift_fits: { (shift < 64) × (whole * 2 ^ shift < 2 ^ 62) },
}

impl Divisor {
    #[tactic(auto, using(crate::proofs::Wide::fits))]
    pub(crate) fn new(whole: u64) -> Divisor
        requires { (0 < whole) × (whole < 2 ^ 62) }
        ensures { result.whole ≡ whole }
    {
        Divisor {
            whole,
            shift: whole.leading_zeros() - 2,
        }
    }

    // Weight and divisor are shifted up by as much as fits: the quotient stays, the remainder is shifted back.
    pub(crate) fn divide(self, t: u64, w: u64) -> Division
        requires { (t < 2 ^ 32) × (w ≤ self.whole) }
        ensures { (result.quotient ≡ t * w / self.whole) × (result.remainder ≡ t * w % self.whole) }
    {
        let shifted = divided(t, w << self.shift, self.whole << self.shift);
        Division {
            quotient: shifted.quotient,
            remainder: shifted.remainder >> self.shift,
        }
    }
}

// The product is cut at bit 31. The quotient is first taken by the divisor's upper part plus one, which gives no more
// than the true one, and is then counted up; a divisor near 2^62 leaves only a few steps.
#[tactic(auto, using(crate::proofs::Wide::wide))]
fn divided(t: u64, w: u64, whole: u64) -> Division
    requires { (t < 2 ^ 32) × (w ≤ whole) × (0 < whole) × (whole < 2 ^ 62) }
    ensures { (result.quotient * whole + result.remainder ≡ t * w) × (result.remainder < whole) }
{
    let part = t * (w % 0x8000_0000);
    let a = t * (w >> 31) + (part >> 31);
    let d = (whole >> 31) + 1;
    // The dividend has more than 32 bits for every weight, 0 too: the machine's division then goes one way always.
    let wide = a + d * 0x1_0000_0000;
    let mut q = wide / d - 0x1_0000_0000;
    let mut r = (wide % d) * 0x8000_0000
        + part % 0x8000_0000
        + q * (0x8000_0000 - whole % 0x8000_0000);
    while r >= whole {
        r -= whole;
        q += 1;
    }
    Division {
        quotient: q,
        remainder: r,
    }
}
