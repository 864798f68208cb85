// Overruns of a day: hourly, twelve-hourly, daily receipt and delivery, and the greatest of the four.
#![tactic(auto)]

mod daily;
mod day;
mod gas;
mod hourly;
mod twelve_hourly;

pub use daily::{Daily, daily_overruns};
pub use day::{ExcusedHours, Overruns, ShipperDay, metered_overruns, overruns_of_day};
pub use hourly::hourly_overrun;
pub use twelve_hourly::twelve_hourly_overrun;
