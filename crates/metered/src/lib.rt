// The figures of a shipper's day, hours and single figures, and whether they are within their bounds; hours compared with a limit.
#![tactic(auto)]

mod excused;
mod hours;
mod singles;

pub use excused::{examine_excused, examine_excused_hours, excess};
pub use hours::{bare_hours, both_days, examine_hours};
pub use singles::{examine_mdqs, examine_sides};
use units::{Gigajoules, Megajoules};

// A side's single figures of a day: its schedules, forward and backhaul, and the backhaul metered.
#[derive(Clone, Copy)]
pub struct Side {
    pub forward: Gigajoules,
    pub backhaul: Gigajoules,
    pub metered: Megajoules,
}
