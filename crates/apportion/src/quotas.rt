// The quotas and remainders of all items.
ghost use Rattle.std.specs.Prelude.{◌≡◌, ◌^◌, ◌≤◌, ◌<◌, length};
ghost use Rattle.apportion.specs.Shares.{sum};
ghost use Rattle.apportion.specs.Inner.Selection.{RoundedDown};

use super::quotient::Divisor;

// The sum of the quotas, the largest remainder, and how many remainders are above 0.
#[derive(Clone, Copy)]
pub struct Down {
    pub sum: u64,
    pub largest: u64,
    pub positive: u64,
}

// Writes the quotas and the remainders.
#[tactic(auto, using(crate::proofs::Leftover::item_le, crate::proofs::Leftover::quota_le))]
pub(crate) fn round_down(
    total: u64,
    divisor: Divisor,
    ws: &[u64],
    rests: &mut [u64],
    out: &mut [u32],
) -> Down
    requires total_bound { (total < 2 ^ 32) × (sum ws.now ≤ divisor.whole) }
    requires rests_len { (length rests.old ≡ length ws.now) × (length out.old ≡ length ws.now) }
    ensures { RoundedDown total divisor.whole ws.now result.sum result.largest result.positive rests.new out.new }
{
    let mut down = Down {
        sum: 0,
        largest: 0,
        positive: 0,
    };
    for (i, &w) in ws.iter().enumerate() {
        let part = divisor.divide(total, w);
        rests[i] = part.remainder;
        out[i] = part.quotient as u32;
        down.sum += part.quotient;
        down.largest = down.largest.max(part.remainder);
        down.positive += u64::from(0 < part.remainder);
    }
    down
}
