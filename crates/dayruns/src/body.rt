// Each tag's body read kind by kind: with the kinds named, widths and bounds are constants.
// One routine that takes the kinds from a tag's data was tried: a full file takes 1.4 times as long (docs/SPEED.md).
ghost use Rattle.dayformat.specs.Format.{body};
ghost use Rattle.dayruns.specs.Private.{KindsRead, BodyRoom, BodyRead};

use crate::kind::{Cursor, read_kind};
use dayformat::{BACKHAUL, GIGAJOULES, HOUR, METER_HOURS, NAME, NUMBER, SIDE, Tag};

fn read_shipper(file: &[u8], from: Cursor, numbers: &mut [usize]) -> Cursor
    requires { BodyRoom Tag.Shipper file.now from numbers.old }
    ensures { KindsRead (body Tag.Shipper) file.now from numbers.old numbers.new result }
{
    let shipper = read_kind(file, from, 1, NAME, numbers);
    read_kind(file, shipper, 5, GIGAJOULES, numbers)
}

fn read_point(file: &[u8], from: Cursor, numbers: &mut [usize]) -> Cursor
    requires { BodyRoom Tag.Point file.now from numbers.old }
    ensures { KindsRead (body Tag.Point) file.now from numbers.old numbers.new result }
{
    let side = read_kind(file, from, 1, SIDE, numbers);
    let point = read_kind(file, side, 1, NAME, numbers);
    read_kind(file, point, 1, HOUR, numbers)
}

pub fn read_entry(file: &[u8], from: Cursor, numbers: &mut [usize]) -> Cursor
    requires { BodyRoom Tag.Entry file.now from numbers.old }
    ensures { KindsRead (body Tag.Entry) file.now from numbers.old numbers.new result }
{
    let side = read_kind(file, from, 1, SIDE, numbers);
    let names = read_kind(file, side, 2, NAME, numbers);
    read_kind(file, names, 1, HOUR, numbers)
}

fn read_meter(file: &[u8], from: Cursor, numbers: &mut [usize]) -> Cursor
    requires { BodyRoom Tag.Meter file.now from numbers.old }
    ensures { KindsRead (body Tag.Meter) file.now from numbers.old numbers.new result }
{
    let shipper = read_kind(file, from, 1, NAME, numbers);
    let mdqs = read_kind(file, shipper, 2, GIGAJOULES, numbers);
    let hours = read_kind(file, mdqs, METER_HOURS, HOUR, numbers);
    let schedules = read_kind(file, hours, 4, GIGAJOULES, numbers);
    read_kind(file, schedules, 2, BACKHAUL, numbers)
}

fn read_excused(file: &[u8], from: Cursor, numbers: &mut [usize]) -> Cursor
    requires { BodyRoom Tag.Excused file.now from numbers.old }
    ensures { KindsRead (body Tag.Excused) file.now from numbers.old numbers.new result }
{
    let shipper = read_kind(file, from, 1, NAME, numbers);
    read_kind(file, shipper, METER_HOURS, NUMBER, numbers)
}

// The body of a tag. A head, of which a file has one, is not read so.
pub fn read_body(file: &[u8], tag: Tag, from: Cursor, numbers: &mut [usize]) -> bool
    requires { BodyRoom tag file.now from numbers.old }
    ensures { BodyRead file.now tag from numbers.old numbers.new result }
{
    match tag {
        Tag::Head => false,
        Tag::Shipper => read_shipper(file, from, numbers).kept,
        Tag::Point => read_point(file, from, numbers).kept,
        Tag::Entry => read_entry(file, from, numbers).kept,
        Tag::Meter => read_meter(file, from, numbers).kept,
        Tag::Excused => read_excused(file, from, numbers).kept,
    }
}
