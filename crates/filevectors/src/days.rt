// The day file's reader and writer.
use crate::lent::{LENT_BYTE, LENT_NUMBER, MOST_BYTES, MOST_NUMBERS, put_written_numbers};
use crate::texts::put_text;
use cases::{bytes, day_of, of_halves, past, past_bytes, put_answer, word_within};
use dayformat::Day;
use std::io::{Result, Write};

pub fn answer_reading<W: Write>(out: &mut W, given: &[u8]) -> Result<()> {
    let mut lent = [LENT_NUMBER; MOST_NUMBERS];
    let room = word_within(given, 0, MOST_NUMBERS);
    let reading = dayfile::read_day(bytes(past(given, 1)), &mut lent[..room]);
    put_answer(out, b"read_day", reading.map(figures_of))?;
    put_written_numbers(out, &lent, room)
}

fn figures_of(day: Day) -> [u64; 8] {
    let head = day.head;
    let counts = day.counts;
    [
        head.day as u64,
        head.free_flow.0 as u64,
        head.compressor.0 as u64,
        counts.shippers as u64,
        counts.points as u64,
        counts.entries as u64,
        counts.meters as u64,
        counts.excused as u64,
    ]
}

pub fn answer_writing<W: Write>(out: &mut W, given: &[u8]) -> Result<()> {
    let mut lent = [LENT_BYTE; MOST_BYTES];
    let room = word_within(given, 8, MOST_BYTES);
    let halves = past(given, 9);
    let lower = bytes(halves);
    let count = (lower.len() / 4).min(MOST_NUMBERS);
    let mut numbers = [0; MOST_NUMBERS];
    let written = daywriter::write_day(
        day_of(given),
        numbers_of(bytes(past_bytes(halves)), lower, &mut numbers[..count]),
        &mut lent[..room],
    );
    put_text(out, b"write_day", written, &lent, room)
}

// The numbers of 64 bits of which two lists of words have the halves, laid in a lent block of so many.
fn numbers_of<'a>(higher: &[u8], lower: &[u8], lent: &'a mut [usize]) -> &'a [usize] {
    for (place, number) in lent.iter_mut().enumerate() {
        *number = of_halves(higher, lower, place);
    }
    lent
}
