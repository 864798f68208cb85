// The day file's reader, opened.
#![tactic(auto)]

mod reader;
mod walk;

pub use reader::read_day;
