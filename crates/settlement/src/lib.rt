// One building month settled (document 01, "Steps of a month"): the divisions, the bill and the statement that crate `month` defines.
#![tactic(auto)]

mod bill;
mod building;
mod divide;
mod heat;
mod layout;
mod settling;
mod water;

pub use bill::{bill_cents, cents_for};
pub use building::{Survey, settle_with, survey_sheet};
pub use divide::share;
pub use settling::{settle, settle_checked};
