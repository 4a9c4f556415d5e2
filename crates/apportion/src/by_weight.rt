// The leftover by the rule of the larger weight: a threshold of the keys, and then one of the weights at it. So key and weight never become one number.
ghost use Rattle.std.specs.Prelude.{◌≡◌, [], ℕ, ◌+◌, ◌-◌, ◌^◌, ◌≤◌, ◌<◌, length, get_or};
ghost use Rattle.apportion.specs.Shares.{sum, at_least, extras, added};
ghost use Rattle.apportion.specs.Inner.Selection.{largest, weight_at, paired, NoneForNone, WeightsKept};

use super::narrowing::Leftover;
use super::quotas::Down;
use super::selection::{give_above, give_cut};

// The largest of the weights at a threshold, and how many of them are above 0.
#[derive(Clone, Copy)]
struct Kept {
    largest: u64,
    positive: u64,
}

// An item's weight where its key is theta, else 0.
fn weight_at(theta: u64, key: u64, w: u64) -> u64
    ensures { result ≡ weight_at theta key w }
{
    if key == theta { w } else { 0 }
}

// Writes these weights over the keys.
fn keep_weights(theta: u64, ws: &[u64], keys: &mut [u64]) -> Kept
    requires { length keys.old ≡ length ws.now }
    ensures { WeightsKept theta ws.now keys.old result.largest result.positive keys.new }
{
    let mut kept = Kept {
        largest: 0,
        positive: 0,
    };
    for (i, &w) in ws.iter().enumerate() {
        let at = weight_at(theta, keys[i], w);
        keys[i] = at;
        kept.largest = kept.largest.max(at);
        kept.positive += u64::from(0 < at);
    }
    kept
}

// The leftover goes one each to the largest keys; of equal ones to the larger weight, then to the earlier item. What the keys hold then is of no use.
pub(crate) fn give_by_weight(left: u64, down: Down, ws: &[u64], keys: &mut [u64], out: &mut [u32])
    requires left_nonzero { (0 < left) × (left ≤ down.positive) × (down.positive ≡ at_least 1 keys.old) × (down.largest ≡ largest keys.old) × (down.largest < 2 ^ 62) }
    requires keys_len { (length keys.old ≡ length ws.now) × NoneForNone ws.now keys.old × (0 < sum ws.now) × (sum ws.now < 2 ^ 62) }
    requires out_len { (length out.old ≡ length ws.now) × ((j : ℕ) → get_or out.old j 0 + left < 2 ^ 32 - 1) }
    ensures { out.new ≡ added out.old (extras left [] (paired (sum ws.now) keys.old ws.now)) }
{
    let cut = Leftover::new(keys, left, down.largest, down.positive).threshold();
    give_above(keys, cut.theta, out);
    if cut.spare == 0 {
        return;
    }
    let kept = keep_weights(cut.theta, ws, keys);
    // Mostly all weights that tie are equal: one count tells it, so no brackets are counted first.
    let among = Leftover::new(keys, cut.spare, kept.largest, kept.positive).narrow();
    give_cut(keys, among, out);
}
