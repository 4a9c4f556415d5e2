// What the steps of a month take from the sheet (document 01, "Steps of a month"): sums, hot water, weights, and refusals 8 to 12.
#![tactic(auto)]

mod accepted;
mod basis;
pub mod gather;
pub mod hot_water;
mod kinds;
mod metered;
mod refusals;
mod totals;
mod units;

pub use accepted::Month;
pub use basis::Basis;
pub use kinds::{has_no_device, is_read};
pub use metered::{all_metered, metered_heat};
pub use totals::Totals;
