// System use gas, opened: what each shipper supplies of the general and of the heater gas, and the positive imbalance fuel.
#![tactic(auto)]

mod examine;
mod fuel;
mod general;
mod schedules;
mod share;

pub use fuel::{Imbalance, imbalance_fuel};
pub use general::{NO_FOUNDATION, share_general, share_heater};
