// Gigajoules, megajoules, cubic metres, cents and rates; 01's bounds; a refusal; a list's figures, and the first above a bound.
#![tactic(auto)]

mod above;
mod bounds;
mod refusal;

ghost use Rattle.std.specs.Prelude.{◌≡◌, max};
ghost use Rattle.units.specs.Unit.{thousandfold};

pub use above::{first_gigajoules_above, first_megajoules_above, gigajoules_at};
pub use bounds::{
    MOST_BACKHAUL, MOST_CAPACITY, MOST_CHARGEABLE, MOST_CPI, MOST_GIGAJOULES, MOST_HOUR,
    MOST_IMBALANCE, MOST_RATE, MOST_REQUESTS, MOST_ROWS, MOST_SYSTEM_USE,
};
pub use refusal::{Refusal, clear, gigajoules_within, keep, megajoules_within, placed};

// Whole gigajoules: MDQs, schedules and capacities of a day.
#[derive(Clone, Copy)]
pub struct Gigajoules(pub u32);

// Whole megajoules: hours, capacities of an hour, overruns, system use gas.
#[derive(Clone, Copy)]
pub struct Megajoules(pub u64);

// Whole cubic metres: volumes.
#[derive(Clone, Copy)]
pub struct CubicMetres(pub u64);

// Money.
#[derive(Clone, Copy)]
pub struct Cents(pub u64);

// Hundred-thousandths of a dollar.
#[derive(Clone, Copy)]
pub struct Rate(pub u32);

// The one crossing between units: 1 GJ = 1,000 MJ. It has its name where it is made, which a `From` would hide.
pub fn in_megajoules(energy: Gigajoules) -> Megajoules
    ensures { result ≡ thousandfold energy }
{
    Megajoules(energy.0 as u64 * 1000)
}

// The greater of two.
pub fn greater(one: Megajoules, other: Megajoules) -> Megajoules
    ensures { result.0 ≡ max one.0 other.0 }
{
    Megajoules(one.0.max(other.0))
}
