// The divisions of a month.
ghost use Rattle.std.specs.Prelude.{◌≡◌, ◌++◌, ◌-◌, ◌^◌, ◌≤◌, ◌<◌, length, drop, replicate};
ghost use Rattle.apportion.specs.Shares.{sum};
ghost use Rattle.month.specs.Steps.{shares_under};
ghost use Rattle.weights.specs.Inner.By.{weights_by};
ghost use Rattle.weights.specs.Inner.Months.{sheet_of_month};
ghost use Rattle.settlement.specs.Inner.Division.{Divides, Shared};
ghost use Rattle.settlement.specs.Inner.Heat.{SplitParts};

use sheet::{RuleSet, ties};
use weights::Month;
use weights::gather::{By, gather};

// The total divided by the weights, by the rules. Of the weights there are 160 at the most: the shares stand at the front of the list, and what is behind them stays.
pub fn share(rules: RuleSet, total: u64, weights: &[u64], out: &mut [u32])
    requires few { (length weights.now ≤ 160) × (length weights.now ≤ length out.old) }
    requires divides { Divides total weights.now × (sum weights.now < 2 ^ 62) }
    ensures { out.new ≡ shares_under rules total weights.now ++ drop (length weights.now) out.old }
{
    let mut remainders = [0u64; 160];
    let n = weights.len();
    apportion::apportion(
        ties(rules),
        total,
        weights,
        &mut remainders[..n],
        &mut out[..n],
    );
}

// The total divided by the weights of the units that take part, at the front of a list that begins as zeros: with nothing to divide it stays.
pub(crate) fn divide_by<'a>(month: &'a Month<'a>, by: By, total: u64, out: &mut [u32; 160])
    requires { (out.old ≡ replicate 160 0) × Divides total (weights_by month.now.basis.rules by (sheet_of_month month.now)) }
    ensures { Shared month.now.basis.rules total (weights_by month.now.basis.rules by (sheet_of_month month.now)) out.new }
{
    if total == 0 {
        return;
    }
    let mut weights = [0u64; 160];
    let m = gather(&month.basis, by, &mut weights);
    share(month.basis.rules, total, &weights[..m], out);
}

// The units' part and the common part.
#[derive(Clone, Copy)]
pub struct Parts {
    pub units: u64,
    pub common: u64,
}

// Divided by (100 − percent, percent), by any rules: of two remainders the larger is a half or more, and of equal ones the first has no smaller weight, so the first
// part is half up.
pub(crate) fn split(percent: u64, total: u64) -> Parts
    requires { (total < 2 ^ 32 - 1) × (percent ≤ 50) }
    ensures { SplitParts percent total result }
{
    let units = (total * (100 - percent) + 50) / 100;
    Parts {
        units,
        common: total - units,
    }
}
