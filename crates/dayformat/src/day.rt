// A day without its numbers, which stand in a lent block.
use crate::layout::Counts;
use units::Gigajoules;

#[derive(Clone, Copy)]
pub struct Head {
    pub day: u32,
    pub free_flow: Gigajoules,
    pub compressor: Gigajoules,
}

#[derive(Clone, Copy)]
pub struct Day {
    pub head: Head,
    pub counts: Counts,
}
