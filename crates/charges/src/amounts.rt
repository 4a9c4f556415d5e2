// The amounts of a call.
ghost use Rattle.std.specs.Prelude.{◌≡◌};
ghost use Rattle.charges.specs.Answer.{over_limit};

// In cents.
const LIMIT: u32 = 100_000_000;

// In cents: connection power, the buyer's fee, the supplier's fee.
#[derive(Clone, Copy)]
pub struct Amounts {
    pub power: u32,
    pub buyer: u32,
    pub supplier: u32,
}

// 4: an amount over its limit.
pub(crate) fn over_limit(a: Amounts) -> bool
    ensures { result ≡ over_limit a }
{
    [a.power, a.buyer, a.supplier]
        .iter()
        .any(|&amount| LIMIT < amount)
}
