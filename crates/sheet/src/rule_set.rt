// The rules by which a month is settled, a case for each archive version (document 02).
ghost use Rattle.std.specs.Prelude.{◌≡◌};
ghost use Rattle.sheet.specs.RuleSets.{limits_risers, ties};

use apportion::TieRule;

#[derive(Clone, Copy)]
pub enum RuleSet {
    Archive1,
    Archive2,
    Archive3,
}

// What is settled now goes by these.
pub const NEWEST: RuleSet = RuleSet::Archive3;

// 2026-01.
pub fn limits_risers(rules: RuleSet) -> bool
    ensures { result ≡ limits_risers rules }
{
    match rules {
        RuleSet::Archive1 => false,
        RuleSet::Archive2 | RuleSet::Archive3 => true,
    }
}

// 2026-06.
pub fn ties(rules: RuleSet) -> TieRule
    ensures { result ≡ ties rules }
{
    match rules {
        RuleSet::Archive1 | RuleSet::Archive2 => TieRule::EarlierFirst,
        RuleSet::Archive3 => TieRule::LargerFirst,
    }
}
