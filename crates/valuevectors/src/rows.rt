// A number of a day, a row's tests, a shipper, a point.
use crate::day::Given;
use cases::{put_answer, word};
use dayformat::Tag;
use std::io::{Result, Write};

// The tables' tags: 2 to 5, and 9. Numbers of a case to an enum, and for columns to another.
fn tag_of(tag: u32) -> Tag {
    match tag {
        2 => Tag::Shipper,
        3 => Tag::Point,
        4 => Tag::Entry,
        9 => Tag::Excused,
        _ => Tag::Meter,
    }
}

pub fn answer_number<W: Write>(out: &mut W, given: Given) -> Result<()> {
    let tag = tag_of(word(given.rest, 0));
    let row = word(given.rest, 1);
    let column = word(given.rest, 2);
    let number = dayvalues::number_at(given.tables(), tag, row, column);
    put_answer(out, b"number_at", Ok([number as u64]))
}

pub fn answer_row<W: Write>(out: &mut W, given: Given) -> Result<()> {
    let tag = tag_of(word(given.rest, 0));
    let check = dayvalues::check_row(given.tables(), tag, word(given.rest, 1));
    put_answer(out, b"check_row", check.map(|()| []))
}

pub fn answer_shipper<W: Write>(out: &mut W, given: Given) -> Result<()> {
    let row = dayvalues::shipper_at(given.tables(), word(given.rest, 0));
    put_answer(out, b"shipper_at", row.map(|shipper| [shipper as u64]))
}

pub fn answer_point<W: Write>(out: &mut W, given: Given) -> Result<()> {
    let row = dayvalues::point_at(given.tables(), word(given.rest, 0));
    let figures = row.map(|point| [point.side as u64, point.point as u64, point.capacity.0]);
    put_answer(out, b"point_at", figures)
}
