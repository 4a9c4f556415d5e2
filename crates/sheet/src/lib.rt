// The sheet of one building month: layout, ranges, refusals 1 to 7 (document 01, "The sheet").
#![tactic(auto)]

pub mod bytes;
mod check;
mod codes;
pub mod header;
mod ranges;
mod refusal;
mod row_views;
pub mod rows;
mod rule_set;
mod tables;
mod view;
mod watt_hours;

pub use codes::{Model, Status, UnknownCode, WaterClass, WaterSource};
pub use ranges::Range;
pub use refusal::Refusal;
pub use row_views::Rows;
pub use rule_set::{NEWEST, RuleSet, limits_risers, ties};
pub use view::{RowView, Sheet};
pub use watt_hours::Wh;
