// The static library for callers in other languages: the functions of `cormcushion`, exported under their names.
#![tactic(auto)]

mod capacity;
mod day;
mod daygas;
mod meter;
mod texts;
