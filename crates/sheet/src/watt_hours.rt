// An amount of Wh (document 01, "Dividing"): its zero, its upper end, its addition.
ghost use Rattle.std.specs.Prelude.{◌≡◌};
ghost use Rattle.sheet.specs.WattHours.{wh_in, amount_of, plus_wh};
ghost use Rattle.sheet.specs.Inner.Sums.{past_sum, wh_in_sum};

// Its number is private: only `of` and `plus` make an amount, and neither makes one past MAX.
#[derive(Clone, Copy)]
pub struct Wh(u32);

impl Wh {
    pub const ZERO: Wh = Wh(0);

    pub const MAX: Wh = Wh(4_000_000_000);

    // Past MAX there is no amount.
    pub fn of(number: u64) -> Option<Wh>
        ensures { result ≡ amount_of number }
    {
        let number = u32::try_from(number).ok()?;
        (number <= Wh::MAX.0).then_some(Wh(number))
    }

    pub fn plus(self, other: Wh) -> Option<Wh>
        ensures { result ≡ plus_wh (wh_in self) (wh_in other) }
    {
        Wh::of(u64::from(self.0) + u64::from(other.0))
    }

    pub fn number(self) -> u64
        ensures { result ≡ wh_in self }
    {
        u64::from(self.0)
    }

    // A sum past MAX is past every limit.
    pub fn sum_past(sum: Option<Wh>, limit: u64) -> bool
        ensures { result ≡ past_sum sum limit }
    {
        match sum {
            Some(wh) => limit < wh.number(),
            None => true,
        }
    }

    // The number of Wh of a sum, 0 where it is past MAX.
    pub fn sum_number(sum: Option<Wh>) -> u64
        ensures { result ≡ wh_in_sum sum }
    {
        match sum {
            Some(wh) => wh.number(),
            None => 0,
        }
    }
}
