// The fields of one tag in a file or in a list of entries, taken one after another and tested, opened.
#![tactic(auto)]

mod body;
mod caps;
mod field;
mod glance;
mod key;
mod kind;
mod names;
mod row;
mod run;
mod walk;

pub use run::{Run, run_fields};
pub use walk::Walk;
