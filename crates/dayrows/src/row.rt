// A row of a tag among a day's numbers, from where it begins.
ghost use Rattle.std.specs.Prelude.{◌≡◌, ◌^◌, ◌<◌};
ghost use Rattle.dayformat.specs.Layout.{row_start};

use crate::tables::Tables;
use dayformat::{Tag, row_place};

#[derive(Clone, Copy)]
pub struct Row<'a> {
    pub tables: Tables<'a>,
    pub tag: Tag,
    pub at: usize,
    pub ghost near: { at < 2 ^ 40 },
}

// The row that stands so many rows into its table.
pub fn row_of(tables: Tables, tag: Tag, row: u32) -> Row
    ensures among { result.tables ≡ tables.entry }
    ensures tagged { result.tag ≡ tag }
    ensures begins { result.at ≡ row_start tables.entry.counts tag row }
{
    Row {
        tables,
        tag,
        at: row_place(tables.counts, tag, row),
    }
}
