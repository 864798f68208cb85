// The library for callers in other languages: thin functions over the opened routines, on numbers and lists of numbers and bytes.
#![tactic(auto)]

mod answers;
mod capacity;
mod day;
mod daygas;
mod hours;
mod meter;
mod packed;
mod texts;

pub use capacity::{cormcushion_share_day, cormcushion_share_round};
pub use day::{cormcushion_check_day, cormcushion_read_day};
pub use daygas::cormcushion_readings;
pub use meter::{cormcushion_overruns, cormcushion_overruns_excused};
pub use texts::{
    cormcushion_list_charges, cormcushion_list_points, cormcushion_list_shares,
    cormcushion_month_statement,
};
