// The year book (document 01, "Year book"), with the year sums beside it (2026-02).
#![tactic(auto)]

mod book;
mod bring;
mod layout;
mod months;
mod opening;
mod totals;
mod withdrawal;

pub use bring::{post, replace};
pub use layout::bad_book;
pub use opening::open;
pub use totals::{YearTotals, year};
pub use withdrawal::withdraw;
