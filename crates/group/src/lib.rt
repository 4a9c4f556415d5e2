// Several buildings on one meter (2026-04; article 7 (7), (8)).
#![tactic(auto)]

mod answer;
mod buildings;
mod difference;
mod figures;
mod settling;

pub use answer::GroupRefusal;
pub use buildings::Building;
pub use settling::settle_group;
