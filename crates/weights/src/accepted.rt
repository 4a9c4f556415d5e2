// A month that none of 8 to 12 refuses.
ghost use Rattle.std.specs.Prelude.{◌≡◌, IsOk};
ghost use Rattle.sheet.specs.Layout.{sheet_of};
ghost use Rattle.sheet.specs.Refusals.{first_refusal};
ghost use Rattle.month.specs.Month.{hot_water_wh, month_rules};
ghost use Rattle.weights.specs.Inner.Metered.{metered_heat};

use crate::basis::Basis;
use crate::refusals::Figures;
use sheet::{Refusal, RuleSet, Sheet, Wh};

// What it is settled by, H and C.
#[derive(Clone, Copy)]
pub struct Month<'a> {
    pub basis: Basis<'a>,
    pub hot_water: u64,
    pub metered: u64,
    pub ghost accepted: { IsOk (first_refusal (month_rules (sheet_of basis.sheet.bytes.now))) },
    pub ghost water_is: { hot_water ≡ hot_water_wh (sheet_of basis.sheet.bytes.now) },
    pub ghost metered_is: { metered ≡ metered_heat (sheet_of basis.sheet.bytes.now) },
}

impl<'a> Month<'a> {
    ghost use Rattle.std.specs.Prelude.{IfOk};
    ghost use Rattle.sheet.specs.Refusals.{outcome_of};

    // 8 to 12.
    pub fn measure(rules: RuleSet, sheet: Sheet<'a>) -> Result<Month<'a>, Refusal>
        ensures answer { outcome_of result ≡ first_refusal (month_rules (sheet_of sheet.entry.bytes.now)) }
        ensures month { IfOk result (λ m. (m.basis.rules ≡ rules) × (m.basis.sheet.bytes ≡ sheet.entry.bytes)) }
    {
        let figures = Figures::of(Basis::of(rules, sheet));
        figures.check()?;
        Ok(Month {
            basis: figures.basis,
            hot_water: figures.hot_water,
            metered: Wh::sum_number(figures.metered),
        })
    }
}
