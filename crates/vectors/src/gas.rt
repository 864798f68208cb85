// An hour at a point, and system use gas.
use crate::lists::{LENT, MOST_ROWS, MOST_WORDS, list, past_list, wide_list};
use cases::{past, put_answer, put_list, wide, word, word_within};
use std::io::{Result, Write};
use units::{Gigajoules, Megajoules};
use usegas::Imbalance;

pub fn answer_hour<W: Write>(out: &mut W, given: &[u8]) -> Result<()> {
    let mut shares = [u64::from(LENT); MOST_ROWS];
    let room = word_within(given, 2, MOST_ROWS);
    let entitlements = past(given, 3);
    let hour = pointshares::share_hour(
        Megajoules(wide(given, 0)),
        wide_list(entitlements, &mut [0; MOST_ROWS]),
        list(past_list(entitlements), &mut [0; MOST_WORDS]).0,
        &mut shares[..room],
    );
    put_answer(out, b"share_hour", hour.map(|total| [total.0]))?;
    put_list(out, &shares[..room])
}

pub fn answer_general<W: Write>(out: &mut W, given: &[u8]) -> Result<()> {
    let mut shares = [u64::from(LENT); MOST_ROWS];
    let room = word_within(given, 6, MOST_ROWS);
    let gas = usegas::share_general(
        Megajoules(wide(given, 0)),
        Megajoules(wide(given, 2)),
        wide(given, 4) as usize,
        list(past(given, 7), &mut [0; MOST_WORDS]).0,
        &mut shares[..room],
    );
    put_answer(out, b"share_general", gas.map(|total| [total.0]))?;
    put_list(out, &shares[..room])
}

pub fn answer_heater<W: Write>(out: &mut W, given: &[u8]) -> Result<()> {
    let mut shares = [u64::from(LENT); MOST_ROWS];
    let room = word_within(given, 2, MOST_ROWS);
    let gas = usegas::share_heater(
        Megajoules(wide(given, 0)),
        list(past(given, 3), &mut [0; MOST_WORDS]).0,
        &mut shares[..room],
    );
    put_answer(out, b"share_heater", gas.map(|total| [total.0]))?;
    put_list(out, &shares[..room])
}

pub fn answer_fuel<W: Write>(out: &mut W, given: &[u8]) -> Result<()> {
    let fuel = usegas::imbalance_fuel(
        imbalance_of(given),
        imbalance_of(past(given, 2)),
        Gigajoules(word(given, 4)),
    );
    put_answer(out, b"imbalance_fuel", fuel.map(|supplied| [supplied.0]))
}

// A word says whether it is below zero, and the next how far from it.
fn imbalance_of(given: &[u8]) -> Imbalance {
    let size = word(given, 1) as i64;
    if word(given, 0) == 0 {
        return Imbalance(size);
    }
    Imbalance(-size)
}
