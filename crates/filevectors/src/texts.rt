// Texts: the line of a refusal, and the listings. A function for each routine, which says where its figures stand.
use crate::lent::{LENT_BYTE, MOST_BYTES, put_written_bytes};
use cases::{bytes, past, put_answer, wide, word, word_within};
use std::io::{self, Write};
use units::{Rate, Refusal};

// How many bytes the text has, and what was written to the lent block, of which monthvectors prints all.
pub fn put_text<W: Write>(
    out: &mut W,
    routine: &[u8],
    listing: Result<usize, Refusal>,
    lent: &[u8; MOST_BYTES],
    room: usize,
) -> io::Result<()> {
    put_answer(out, routine, listing.map(|size| [size as u64]))?;
    put_written_bytes(out, lent, room)
}

pub fn answer_refusal<W: Write>(out: &mut W, given: &[u8]) -> io::Result<()> {
    let mut lent = [LENT_BYTE; MOST_BYTES];
    let room = word_within(given, 3, MOST_BYTES);
    let refusal = Refusal {
        number: word_within(given, 0, 255) as u8,
        place: wide(given, 1) as usize,
    };
    let line = lines::refusal_line(refusal, &mut lent[..room]);
    put_text(out, b"refusal_line", line, &lent, room)
}

pub fn answer_shares<W: Write>(out: &mut W, given: &[u8]) -> io::Result<()> {
    let mut lent = [LENT_BYTE; MOST_BYTES];
    let room = word_within(given, 0, MOST_BYTES);
    let listing = sharelisting::list_shares(bytes(past(given, 1)), &mut lent[..room]);
    put_text(out, b"list_shares", listing, &lent, room)
}

pub fn answer_charges<W: Write>(out: &mut W, given: &[u8]) -> io::Result<()> {
    let mut lent = [LENT_BYTE; MOST_BYTES];
    let room = word_within(given, 1, MOST_BYTES);
    let rate = Rate(word(given, 0));
    let listing = chargelisting::list_charges(bytes(past(given, 2)), rate, &mut lent[..room]);
    put_text(out, b"list_charges", listing, &lent, room)
}

pub fn answer_points<W: Write>(out: &mut W, given: &[u8]) -> io::Result<()> {
    let mut lent = [LENT_BYTE; MOST_BYTES];
    let room = word_within(given, 0, MOST_BYTES);
    let listing = pointlisting::list_points(bytes(past(given, 1)), &mut lent[..room]);
    put_text(out, b"list_points", listing, &lent, room)
}
