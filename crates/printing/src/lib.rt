// What is printed of a sheet (document 01, "Printing").
#![tactic(auto)]

mod render;
mod settled;
mod sink;
mod text;

pub use text::{LONGEST, print};
