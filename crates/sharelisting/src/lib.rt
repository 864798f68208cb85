// From a day file's bytes to the listing of its shares, opened.
#![tactic(auto)]

mod list;
mod sharestext;

pub use list::list_shares;
