// The tables in file order.
ghost use Rattle.std.specs.Prelude.{◌≡◌};
ghost use Rattle.dayformat.specs.Format.{tag_at, table_place};

use crate::form::Tag;

pub const TABLES: usize = 5;

// The tag of the table at a place, the head's past the last.
pub fn tag_at(place: usize) -> Tag
    ensures { result ≡ tag_at place }
{
    match place {
        0 => Tag::Shipper,
        1 => Tag::Point,
        2 => Tag::Entry,
        3 => Tag::Meter,
        4 => Tag::Excused,
        _ => Tag::Head,
    }
}

// The place of a tag's table.
pub fn table_place(tag: Tag) -> usize
    ensures { result ≡ table_place tag }
{
    match tag {
        Tag::Head => 0,
        Tag::Shipper => 0,
        Tag::Point => 1,
        Tag::Entry => 2,
        Tag::Meter => 3,
        Tag::Excused => 4,
    }
}
