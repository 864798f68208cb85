// A day's meters: a row's tests, its figures and its hours. A function for each routine, which says where its figures stand.
use crate::day::{Given, LENT, MOST_ROWS};
use cases::{put_answer, put_figures, put_list, word, word_within};
use daymeters::MeterFigures;
use metered::bare_hours;
use std::io::{Result, Write};
use units::Megajoules;

pub fn answer_check<W: Write>(out: &mut W, given: Given) -> Result<()> {
    let check = daymeters::check_meter(given.tables(), word(given.rest, 0));
    put_answer(out, b"check_meter", check.map(|()| []))
}

pub fn answer_figures<W: Write>(out: &mut W, given: Given) -> Result<()> {
    let row = daymeters::meter_figures(given.tables(), word(given.rest, 0));
    put_answer(out, b"meter_figures", row.map(figures_of))
}

fn figures_of(meter: MeterFigures) -> [u64; 9] {
    let receipt = meter.receipt;
    let delivery = meter.delivery;
    [
        meter.shipper as u64,
        meter.p.0 as u64,
        meter.m.0 as u64,
        receipt.forward.0 as u64,
        receipt.backhaul.0 as u64,
        receipt.metered.0,
        delivery.forward.0 as u64,
        delivery.backhaul.0 as u64,
        delivery.metered.0,
    ]
}

pub fn answer_yesterday<W: Write>(out: &mut W, given: Given) -> Result<()> {
    let hours = daymeters::meter_yesterday(given.tables(), word(given.rest, 0));
    put_yesterday(out, b"meter_yesterday", hours)
}

// The first 11 of both days' hours, today's all zero.
pub fn put_yesterday<W: Write>(out: &mut W, routine: &[u8], hours: [Megajoules; 11]) -> Result<()> {
    let figures = metered::both_days(hours, [Megajoules(0); 24]);
    put_answer(out, routine, Ok([]))?;
    put_figures(out, &figures[0..11])
}

pub fn answer_hours<W: Write>(out: &mut W, given: Given) -> Result<()> {
    let hours = daymeters::meter_hours(given.tables(), word(given.rest, 0));
    put_today(out, b"meter_hours", hours)
}

pub fn put_today<W: Write>(
    out: &mut W,
    routine: &[u8],
    hours: [[Megajoules; 24]; 2],
) -> Result<()> {
    put_answer(out, routine, Ok(bare_hours(hours[0])))?;
    put_figures(out, &bare_hours(hours[1]))
}

pub fn answer_delivered<W: Write>(out: &mut W, given: Given) -> Result<()> {
    let mut lent = [u64::from(LENT); MOST_ROWS];
    let room = word_within(given.rest, 1, MOST_ROWS);
    let row = word(given.rest, 0);
    let check = daymeters::meter_delivered(given.tables(), row, &mut lent[..room]);
    put_answer(out, b"meter_delivered", check.map(|()| []))?;
    put_list(out, &lent[..room])
}
