// Charges, and the escalation of rates.
use cases::{past, put_answer, wide, word};
use std::io::{Result, Write};
use tariff::Change;
use units::{Gigajoules, Megajoules, Rate};

// A schedule before and after.
fn change_of(given: &[u8]) -> Change {
    Change {
        old: Gigajoules(word(given, 0)),
        new: Gigajoules(word(given, 1)),
    }
}

pub fn answer_overrun<W: Write>(out: &mut W, given: &[u8]) -> Result<()> {
    let charge = tariff::overrun_charge(Rate(word(given, 0)), Megajoules(wide(given, 1)));
    put_answer(out, b"overrun_charge", charge.map(|cents| [cents.0]))
}

pub fn answer_variation<W: Write>(out: &mut W, given: &[u8]) -> Result<()> {
    let receipt = change_of(past(given, 1));
    let delivery = change_of(past(given, 3));
    let charge = tariff::variation_charge(Rate(word(given, 0)), receipt, delivery);
    put_answer(out, b"variation_charge", charge.map(|cents| [cents.0]))
}

pub fn answer_request<W: Write>(out: &mut W, given: &[u8]) -> Result<()> {
    let charge = tariff::request_charge(Rate(word(given, 0)), word(given, 1));
    put_answer(out, b"request_charge", charge.map(|cents| [cents.0]))
}

pub fn answer_escalation<W: Write>(out: &mut W, given: &[u8]) -> Result<()> {
    let escalation = tariff::escalate(Rate(word(given, 0)), word(given, 1), word(given, 2));
    put_answer(out, b"escalate", escalation.map(|rate| [rate.0 as u64]))
}
