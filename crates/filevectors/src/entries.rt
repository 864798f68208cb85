// The entries of a point, and the check beside them.
use cases::{bytes, past, past_bytes, put_answer, put_block, word_within};
use std::io::{Result, Write};

// As a number: any may be asked for.
fn side_of(given: &[u8]) -> u8 {
    word_within(given, 0, 255) as u8
}

fn point_of(given: &[u8]) -> u16 {
    word_within(given, 1, 65_535) as u16
}

pub fn answer_check<W: Write>(out: &mut W, given: &[u8]) -> Result<()> {
    let receipt = past(given, 2);
    let delivery = past_bytes(receipt);
    let check = pointentries::check_entries(
        bytes(receipt),
        bytes(delivery),
        side_of(given),
        point_of(given),
    );
    put_answer(out, b"check_entries", check.map(|()| []))
}

// How many bytes the part has, then the bytes.
pub fn answer_part<W: Write>(out: &mut W, given: &[u8]) -> Result<()> {
    let receipt = past(given, 2);
    let delivery = past_bytes(receipt);
    let part = pointentries::entries_of_point(
        bytes(receipt),
        bytes(delivery),
        side_of(given),
        point_of(given),
    );
    put_answer(out, b"entries_of_point", Ok([part.len() as u64]))?;
    put_block(out, part)
}
