// One field of a file or of a list of entries, taken in full and tested, opened.
#![tactic(auto)]

mod row;

ghost use Rattle.dayfields.specs.Field.{Taken};

use crate::row::read_row;
use dayformat::{Counts, HEADER, Tag, row_place};
use dayrows::{Fault, Source, Tables, breaks, row_fault};

// The first fault of the field at a byte. The row of a field that is whole goes into the numbers.
pub fn take_field(
    source: Source,
    counts: Counts,
    file: &[u8],
    tag: Tag,
    at: usize,
    row: u32,
    numbers: &mut [usize],
) -> Result<(), Fault>
    ensures { Taken source counts file.now tag at row numbers.old numbers.new result }
{
    breaks(file, tag, at)?;
    read_row(file, tag, at + HEADER, numbers, row_place(counts, tag, row));
    row_fault(source, Tables { counts, numbers }, tag, row)
}
