// Dividing a whole by weights, exactly, by the largest-remainder method (document 01, "Dividing").
#![tactic(auto)]

mod by_weight;
mod narrowing;
mod quotas;
mod quotient;
mod selection;
mod tie_rule;

ghost use Rattle.std.specs.Prelude.{◌≡◌, ◌-◌, ◌^◌, ◌<◌, length, replicate};
ghost use Rattle.apportion.specs.Shares.{sum, shares};

use narrowing::Leftover;
use quotient::Divisor;
pub use tie_rule::TieRule;

// The total divided by weights of a sum above 0. What the keys hold then is of no use.
fn divide(ties: TieRule, total: u64, ws: &[u64], keys: &mut [u64], out: &mut [u32])
    requires total_bound { (total < 2 ^ 32 - 1) × (0 < sum ws.now) × (sum ws.now < 2 ^ 62) }
    requires keys_len { (length keys.old ≡ length ws.now) × (length out.old ≡ length ws.now) }
    ensures { out.new ≡ shares ties total ws.now }
{
    let divisor = Divisor::new(ws.iter().sum());
    let down = quotas::round_down(total, divisor, ws, keys, out);
    let left = total - down.sum;
    if left == 0 {
        return;
    }
    match ties {
        TieRule::EarlierFirst => Leftover::new(keys, left, down.largest, down.positive).give(out),
        TieRule::LargerFirst => by_weight::give_by_weight(left, down, ws, keys, out),
    }
}

// Divides the total by the weights, ties by the rule. `scratch` is left as zeros.
pub fn apportion(ties: TieRule, total: u64, ws: &[u64], scratch: &mut [u64], out: &mut [u32])
    requires total_bound { (total < 2 ^ 32 - 1) × (sum ws.now < 2 ^ 62) × (sum ws.now ≡ 0 → total ≡ 0) }
    requires scratch_len { (length scratch.old ≡ length ws.now) × (length out.old ≡ length ws.now) }
    ensures { (out.new ≡ shares ties total ws.now) × (scratch.new ≡ replicate (length ws.now) 0) }
{
    // Many totals are 0. The weights of any other have a sum above 0.
    if total == 0 {
        out.fill(0);
    } else {
        divide(ties, total, ws, scratch, out);
    }
    scratch.fill(0);
}
