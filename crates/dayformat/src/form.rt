// What is known of each tag's fields.
ghost use Rattle.std.specs.Prelude.{◌≡◌};
ghost use Rattle.dayformat.specs.Format.{form};

use crate::body::{BACKHAUL, GIGAJOULES, HOUR, METER_HOURS, NAME, NUMBER, SIDE};

// The tags 1 to 5, and 9, in this order.
#[derive(Clone, Copy)]
pub enum Tag {
    Head,
    Shipper,
    Point,
    Entry,
    Meter,
    Excused,
}

// A tag's byte; how many numbers its body holds, in how many bytes; how many fields there may be; how many first numbers are the key.
#[derive(Clone, Copy)]
pub struct Form {
    pub byte: u8,
    pub columns: usize,
    pub size: usize,
    pub most: u32,
    pub key: usize,
}

// The byte of the tag of which a file has the most fields.
pub const ENTRY_BYTE: u8 = 4;

// A field's header: the tag's byte and the bytes of its length.
pub const LENGTH_WIDTH: usize = 2;

pub const HEADER: usize = 1 + LENGTH_WIDTH;

// How many numbers a body holds, kind by kind, and in how many bytes.
const HEAD_COLUMNS: usize = 1 + 2;

const HEAD_BODY: usize = NUMBER.width + 2 * GIGAJOULES.width;

pub const SHIPPER_COLUMNS: usize = 1 + 5;

const SHIPPER_BODY: usize = NAME.width + 5 * GIGAJOULES.width;

pub const POINT_COLUMNS: usize = 1 + 1 + 1;

const POINT_BODY: usize = SIDE.width + NAME.width + HOUR.width;

pub const ENTRY_COLUMNS: usize = 1 + 2 + 1;

const ENTRY_BODY: usize = SIDE.width + 2 * NAME.width + HOUR.width;

pub const METER_COLUMNS: usize = 1 + 2 + METER_HOURS + 4 + 2;

const METER_BODY: usize = NAME.width
    + 2 * GIGAJOULES.width
    + METER_HOURS * HOUR.width
    + 4 * GIGAJOULES.width
    + 2 * BACKHAUL.width;

pub const EXCUSED_COLUMNS: usize = 1 + METER_HOURS;

const EXCUSED_BODY: usize = NAME.width + METER_HOURS * NUMBER.width;

// How many bytes a field has.
pub const HEAD_FIELD: usize = HEADER + HEAD_BODY;

pub const SHIPPER_FIELD: usize = HEADER + SHIPPER_BODY;

pub const POINT_FIELD: usize = HEADER + POINT_BODY;

pub const ENTRY_FIELD: usize = HEADER + ENTRY_BODY;

pub const METER_FIELD: usize = HEADER + METER_BODY;

pub const EXCUSED_FIELD: usize = HEADER + EXCUSED_BODY;

// How many fields of a tag there may be.
pub const MOST_SHIPPERS: u32 = 64;

pub const MOST_POINTS: u32 = 32;

pub const MOST_ENTRIES: u32 = 512;

pub const MOST_METERS: u32 = 64;

pub const MOST_EXCUSED: u32 = 64;

pub fn form_of(tag: Tag) -> Form
    ensures { result ≡ form tag }
{
    match tag {
        Tag::Head => Form {
            byte: 1,
            columns: HEAD_COLUMNS,
            size: HEAD_BODY,
            most: 1,
            key: 0,
        },
        Tag::Shipper => Form {
            byte: 2,
            columns: SHIPPER_COLUMNS,
            size: SHIPPER_BODY,
            most: MOST_SHIPPERS,
            key: 1,
        },
        Tag::Point => Form {
            byte: 3,
            columns: POINT_COLUMNS,
            size: POINT_BODY,
            most: MOST_POINTS,
            key: 2,
        },
        Tag::Entry => Form {
            byte: ENTRY_BYTE,
            columns: ENTRY_COLUMNS,
            size: ENTRY_BODY,
            most: MOST_ENTRIES,
            key: 3,
        },
        Tag::Meter => Form {
            byte: 5,
            columns: METER_COLUMNS,
            size: METER_BODY,
            most: MOST_METERS,
            key: 1,
        },
        Tag::Excused => Form {
            byte: 9,
            columns: EXCUSED_COLUMNS,
            size: EXCUSED_BODY,
            most: MOST_EXCUSED,
            key: 1,
        },
    }
}
