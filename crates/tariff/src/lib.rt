// Overrun, variation and request charges in cents; Schedule 2's rates; escalation.
#![tactic(auto)]

mod charges;
mod escalation;
mod rates;
mod rounding;

pub use charges::{Change, overrun_charge, request_charge, variation_charge};
pub use escalation::escalate;
pub use rates::{OVERRUN_RATE, REQUEST_RATE, Rates, VARIATION_RATE, january_2019};
