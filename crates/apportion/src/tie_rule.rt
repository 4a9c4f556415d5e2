// Which of two items of equal remainder comes first.

#[derive(Clone, Copy)]
pub enum TieRule {
    // Document 01.
    EarlierFirst,
    // The item of larger weight, then the earlier (2026-06).
    LargerFirst,
}
