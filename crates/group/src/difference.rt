// The difference between the shared meter and the buildings' meters, and its shares.
ghost use Rattle.std.specs.Prelude.{◌≡◌, ◌&&◌, ◌≤◌, ◌<◌, ltb, nat_abs, pos, ◌-ℤ◌, length};
ghost use mathlib.Core.List.{zip_with};
ghost use Rattle.apportion.specs.Shares.{sum};
ghost use Rattle.sheet.specs.RuleSets.{newest};
ghost use Rattle.sheet.specs.Tests.{any};
ghost use Rattle.month.specs.Steps.{shares_under, whole_wh};
ghost use Rattle.group.specs.Group.{is_negative, adjusted};
ghost use Rattle.group.specs.Inner.Figures.{Movable, MovableAt};

use settlement::share;

// The shared reading less the sum of the buildings' readings.
pub(crate) fn difference(reading: u64, meters: &[u64]) -> i64
    requires { (reading ≤ 4000000000) × (sum meters.now ≤ 48000000000) }
    ensures { result ≡ (pos reading -ℤ pos (sum meters.now)) }
{
    let total: u64 = meters.iter().sum();
    reading as i64 - total as i64
}

// Its size: a negative one negated.
pub(crate) fn size_of(difference: i64) -> u64
    requires { nat_abs difference ≤ 48000000000 }
    ensures { result ≡ nat_abs difference }
{
    if difference < 0 {
        return (-difference) as u64;
    }
    difference as u64
}

// The size divided by the areas, in their place: a size past 32 bits as whole turns and a rest.
pub(crate) fn share_difference(size: u64, areas: &mut [u64])
    requires { (length areas.old ≤ 12) × (0 < sum areas.old) × (sum areas.old ≤ 19200000) × (size ≤ 48000000000) }
    ensures { areas.new ≡ shares_under newest size areas.old }
{
    let mut rest = [0u32; 12];
    let rest = &mut rest[..areas.len()];
    let whole: u64 = areas.iter().sum();
    share(sheet::NEWEST, size % whole, areas, rest);
    let turns = size / whole;
    for (i, area) in areas.iter_mut().enumerate() {
        *area = turns * *area + u64::from(rest[i]);
    }
}

// 21: of a negative difference a share is above its building's common heat.
pub(crate) fn goes_below(difference: i64, commons: &[u64], shares: &[u64]) -> bool
    requires { length commons.now ≡ length shares.now }
    ensures { result ≡ (is_negative difference && any (zip_with ltb commons.now shares.now)) }
{
    difference < 0
        && commons
            .iter()
            .zip(shares)
            .any(|(common, share)| common < share)
}

// A share added to a figure or, of a negative difference, taken from it.
fn adjusted(difference: i64, figure: u64, share: u64) -> u64
    requires { MovableAt difference share figure }
    ensures { result ≡ adjusted whole_wh difference figure share }
{
    if difference < 0 {
        figure - share
    } else {
        figure + share
    }
}

pub(crate) fn adjust(difference: i64, shares: &[u64], figures: &mut [u64])
    requires { Movable difference shares.now figures.old }
    ensures { figures.new ≡ zip_with (adjusted whole_wh difference) figures.old shares.now }
{
    for (i, figure) in figures.iter_mut().enumerate() {
        *figure = adjusted(difference, *figure, shares[i]);
    }
}
