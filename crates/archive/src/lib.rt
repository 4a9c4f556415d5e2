// The archive record of a settled sheet (document 01, "Archive record").
#![tactic(auto)]

mod head;
mod reader;
mod writer;

pub use reader::{Reading, check, read, sheet_of};
pub use writer::write;
