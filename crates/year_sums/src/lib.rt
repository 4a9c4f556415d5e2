// The year sums (2026-02).
#![tactic(auto)]

mod list;

pub use list::{clear, update};
