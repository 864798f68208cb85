// From a day file's bytes to the listing of its points.
#![tactic(auto)]

mod day;
mod list;
mod point;

pub use list::list_points;
