// A shipper's month: an account of up to 31 days that goes in and comes back by value, its total and its statement.
#![tactic(auto)]

mod account;
mod examine;
mod figures;
mod statement;

pub use account::{Account, AccountDay, Closed, MOST_DAYS, Taken, Totalled};
pub use figures::Figures;
pub use statement::MOST_STATEMENT;
