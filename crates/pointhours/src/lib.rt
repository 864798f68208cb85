// An hour at a point from its part of a file, shared and laid as lines, opened.
#![tactic(auto)]

mod entries;
mod hour;

pub use hour::put_hour;
