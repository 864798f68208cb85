// A field among a file's, and where its row goes among a day's numbers.
ghost use Rattle.dayruns.specs.Private.{Placed};

use dayformat::{Counts, Tag};

// The field of a tag at a byte: its row stands so many rows into its table, and goes to a place.
#[derive(Clone, Copy)]
pub struct Field<'a> {
    pub counts: Counts,
    pub file: &'a [u8],
    pub tag: Tag,
    pub at: usize,
    pub row: u32,
    pub to: usize,
    pub ghost placed: { Placed counts tag row to },
}
