// Connection power and fees (2026-05; article 3): the fixed part of a month, divided beside the statement.
#![tactic(auto)]

mod amounts;
mod charging;
mod columns;
mod models;

pub use amounts::Amounts;
pub use charging::fixed_charges;
