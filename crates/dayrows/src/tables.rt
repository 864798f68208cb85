// A day's tables in memory.
use dayformat::Counts;

// How many rows each table has, and the numbers of all of them, table after table and row after row.
#[derive(Clone, Copy)]
pub struct Tables<'a> {
    pub counts: Counts,
    pub numbers: &'a [usize],
}
