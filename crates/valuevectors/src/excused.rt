// A day's excused gas: a row's tests, its shipper and its hours, and the row of a shipper. A function for each routine, as with meters.
use crate::day::Given;
use crate::meters::{put_today, put_yesterday};
use cases::{put_answer, word, word_within};
use std::io::{Result, Write};

// No shipper is greater.
const MOST_SHIPPER: usize = 65_535;

pub fn answer_check<W: Write>(out: &mut W, given: Given) -> Result<()> {
    let check = daymeters::check_excused(given.tables(), word(given.rest, 0));
    put_answer(out, b"check_excused", check.map(|()| []))
}

pub fn answer_shipper<W: Write>(out: &mut W, given: Given) -> Result<()> {
    let row = daymeters::excused_shipper(given.tables(), word(given.rest, 0));
    put_answer(out, b"excused_shipper", row.map(|shipper| [shipper as u64]))
}

pub fn answer_row<W: Write>(out: &mut W, given: Given) -> Result<()> {
    let shipper = word_within(given.rest, 0, MOST_SHIPPER) as u16;
    let row = daymeters::excused_row(given.tables(), shipper);
    put_answer(out, b"excused_row", Ok([row as u64]))
}

pub fn answer_yesterday<W: Write>(out: &mut W, given: Given) -> Result<()> {
    let hours = daymeters::excused_yesterday(given.tables(), word(given.rest, 0));
    put_yesterday(out, b"excused_yesterday", hours)
}

pub fn answer_hours<W: Write>(out: &mut W, given: Given) -> Result<()> {
    let hours = daymeters::excused_hours(given.tables(), word(given.rest, 0));
    put_today(out, b"excused_hours", hours)
}
