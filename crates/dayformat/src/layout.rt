// How many fields of each tag a day has; so where a row stands among its numbers, and how many numbers and bytes there are.
ghost use Rattle.std.specs.Prelude.{◌≡◌, ◌+◌, ◌*◌, ◌^◌, ◌≤◌, ◌<◌};
ghost use Rattle.columns.specs.Sum.{sum};
ghost use Rattle.dayformat.specs.Format.{many_tables, tag_at, form};
ghost use Rattle.dayformat.specs.Layout.{count, with_count, row_start, numbers_before, numbers_in, bytes_before, fields_start, file_size};
ghost use Rattle.dayformat.specs.Acceptance.{counts_check};

use crate::form::{
    ENTRY_COLUMNS, ENTRY_FIELD, EXCUSED_COLUMNS, EXCUSED_FIELD, HEAD_FIELD, HEADER, METER_COLUMNS,
    METER_FIELD, MOST_ENTRIES, MOST_EXCUSED, MOST_METERS, MOST_POINTS, MOST_SHIPPERS,
    POINT_COLUMNS, POINT_FIELD, SHIPPER_COLUMNS, SHIPPER_FIELD, Tag, form_of,
};
use crate::order::{TABLES, table_place, tag_at};
use units::{Refusal, keep};

// How many numbers a day has at most. Without a heap a day's block is an array of so many, or lent.
pub const MOST_NUMBERS: usize = MOST_SHIPPERS as usize * SHIPPER_COLUMNS
    + MOST_POINTS as usize * POINT_COLUMNS
    + MOST_ENTRIES as usize * ENTRY_COLUMNS
    + MOST_METERS as usize * METER_COLUMNS
    + MOST_EXCUSED as usize * EXCUSED_COLUMNS;

// How many bytes its file has at most.
pub const MOST_BYTES: usize = HEAD_FIELD
    + MOST_SHIPPERS as usize * SHIPPER_FIELD
    + MOST_POINTS as usize * POINT_FIELD
    + MOST_ENTRIES as usize * ENTRY_FIELD
    + MOST_METERS as usize * METER_FIELD
    + MOST_EXCUSED as usize * EXCUSED_FIELD;

// The fields of tags 2 to 5 and 9.
#[derive(Clone, Copy)]
pub struct Counts {
    pub shippers: u32,
    pub points: u32,
    pub entries: u32,
    pub meters: u32,
    pub excused: u32,
}

pub const NO_ROWS: Counts = Counts {
    shippers: 0,
    points: 0,
    entries: 0,
    meters: 0,
    excused: 0,
};

// A day has one head.
pub fn count_of(counts: Counts, tag: Tag) -> u32
    ensures { result ≡ count counts tag }
{
    match tag {
        Tag::Head => 1,
        Tag::Shipper => counts.shippers,
        Tag::Point => counts.points,
        Tag::Entry => counts.entries,
        Tag::Meter => counts.meters,
        Tag::Excused => counts.excused,
    }
}

impl Counts {
    // The counts with so many rows of a tag.
    pub fn with(self, tag: Tag, rows: u32) -> Self
        ensures { result ≡ with_count self tag rows }
    {
        let mut counts = self;
        match tag {
            Tag::Head => {}
            Tag::Shipper => counts.shippers = rows,
            Tag::Point => counts.points = rows,
            Tag::Entry => counts.entries = rows,
            Tag::Meter => counts.meters = rows,
            Tag::Excused => counts.excused = rows,
        }
        counts
    }

    // 3 for a count beyond its bound.
    pub fn check(self) -> Result<(), Refusal>
        ensures { result ≡ counts_check self }
    {
        for place in 0..TABLES {
            let tag = tag_at(place);
            keep(count_of(self, tag) <= form_of(tag).most, 3)?;
        }
        Ok(())
    }
}

// How many numbers the first so many tables hold.
fn numbers_before(counts: Counts, many: usize) -> usize
    requires { many ≤ many_tables }
    ensures { (result ≡ numbers_before counts many) × (result ≤ sum many (λ place. (form (tag_at place)).columns) * 2 ^ 32) }
{
    let mut numbers = 0;
    for place in 0..many {
        let tag = tag_at(place);
        numbers += count_of(counts, tag) as usize * form_of(tag).columns;
    }
    numbers
}

// Where a row stands.
pub fn row_place(counts: Counts, tag: Tag, row: u32) -> usize
    ensures { (result ≡ row_start counts tag row) × (result < 2 ^ 40) }
{
    let start = numbers_before(counts, table_place(tag));
    start + row as usize * form_of(tag).columns
}

// How many numbers a day has.
pub fn numbers_of(counts: Counts) -> usize
    ensures { (result ≡ numbers_in counts) × (result < 2 ^ 40) }
{
    numbers_before(counts, TABLES)
}

// How many bytes its fields have up to those of the first so many tables.
fn bytes_before(counts: Counts, many: usize) -> usize
    requires { many ≤ many_tables }
    ensures { (result ≡ bytes_before counts many) × (result ≤ 15 + many * 2 ^ 41) }
{
    let mut bytes = HEAD_FIELD;
    for place in 0..many {
        let tag = tag_at(place);
        bytes += count_of(counts, tag) as usize * (HEADER + form_of(tag).size);
    }
    bytes
}

// Where the fields of a table begin in its file.
pub fn fields_place(counts: Counts, tag: Tag) -> usize
    ensures { (result ≡ fields_start counts tag) × (result < 2 ^ 44) }
{
    bytes_before(counts, table_place(tag))
}

// How many bytes its file has.
pub fn file_size(counts: Counts) -> usize
    ensures { result ≡ file_size counts }
{
    bytes_before(counts, TABLES)
}
