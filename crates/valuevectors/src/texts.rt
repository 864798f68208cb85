// An hour at a point, laid as lines, and a word read as a number.
use crate::day::Given;
use cases::{bytes, past, put_answer, put_block, wide, word, word_within};
use std::io::{Result, Write};
use units::Megajoules;

// What a lent byte is before the call.
const LENT_BYTE: u8 = 255;

// No block has more room: more than the lines of 64 entries.
const MOST_BYTES: usize = 1_100;

pub fn answer_hour<W: Write>(out: &mut W, given: Given) -> Result<()> {
    let mut lent = [LENT_BYTE; MOST_BYTES];
    let capacity = Megajoules(wide(given.rest, 0));
    let at = wide(given.rest, 2) as usize;
    let room = word_within(given.rest, 4, MOST_BYTES);
    let part = bytes(past(given.rest, 5));
    let block = &mut lent[..room];
    let size = pointhours::put_hour(given.tables(), part, capacity, block, at);
    put_answer(out, b"put_hour", Ok([size as u64]))?;
    put_block(out, &lent[..room])
}

pub fn answer_decimal<W: Write>(out: &mut W, given: &[u8]) -> Result<()> {
    let decimal = decimals::decimal_of(bytes(past(given, 1)), word(given, 0));
    put_answer(out, b"decimal_of", decimal.map(|number| [number as u64]))
}
