// From a day file's bytes and a rate to the listing of expected overrun charges, opened.
#![tactic(auto)]

mod charges;
mod chargestext;
mod list;

pub use list::list_charges;
