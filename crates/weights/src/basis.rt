// What a month is settled by, and a unit as its weights are taken.
ghost use Rattle.std.specs.Prelude.{◌≡◌};
ghost use Rattle.std.specs.Coded.{Coded-set};
ghost use Rattle.sheet.specs.Layout.{sheet_of};
ghost use Rattle.weights.specs.Inner.Totals.{totals_in};

use crate::totals::Totals;
use sheet::{RowView, RuleSet, Sheet};

// The rules, the sheet and the sums over its units.
#[derive(Clone, Copy)]
pub struct Basis<'a> {
    pub rules: RuleSet,
    pub sheet: Sheet<'a>,
    pub totals: Totals,
    pub ghost summed: { totals ≡ totals_in (sheet_of sheet.bytes.now) } by { Coded-set totals-code totals (totals_in (sheet_of sheet.bytes.now)) },
}

// A unit's row beside what its sheet is settled by.
#[derive(Clone, Copy)]
pub struct Unit<'a> {
    pub basis: &'a Basis<'a>,
    pub row: RowView<'a>,
    pub ghost same_sheet: { row.sheet.bytes.now ≡ basis.now.sheet.bytes.now },
}

impl<'a> Basis<'a> {
    pub fn of(rules: RuleSet, sheet: Sheet<'a>) -> Basis<'a>
        ensures { (result.rules ≡ rules) × (result.sheet.bytes ≡ sheet.entry.bytes) }
    {
        Basis {
            rules,
            sheet,
            totals: Totals::of_sheet(sheet),
        }
    }
}
