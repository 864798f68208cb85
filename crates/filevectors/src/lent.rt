// A lent block as it is after the call: up to its last element that is not as it was lent, then how many are kept after that one.
ghost use Rattle.std.specs.Prelude.{◌≤◌, length};

use cases::{put_block, put_figures, put_list};
use std::io::{Result, Write};

// What a lent number is before the call: no answer has it.
pub const LENT_NUMBER: usize = 4_000_000_000;

// What a lent byte is.
pub const LENT_BYTE: u8 = 255;

// No block of numbers has more room: one more than a full day has. Blocks are arrays, for there is no heap.
pub const MOST_NUMBERS: usize = dayformat::MOST_NUMBERS + 1;

// No block of bytes: one more than a full day's file has, and no listing is as long.
pub const MOST_BYTES: usize = dayformat::MOST_BYTES + 1;

// What was written to a block of numbers, and how many stay; below the same of bytes, which print otherwise.
pub fn put_written_numbers<W: Write>(
    out: &mut W,
    lent: &[usize; MOST_NUMBERS],
    room: usize,
) -> Result<()> {
    let written = written_numbers(lent, room);
    put_list(out, &lent[..written])?;
    put_kept(out, room - written)
}

// Bytes in hexadecimal.
pub fn put_written_bytes<W: Write>(
    out: &mut W,
    lent: &[u8; MOST_BYTES],
    room: usize,
) -> Result<()> {
    let written = written_bytes(lent, room);
    put_block(out, &lent[..written])?;
    put_kept(out, room - written)
}

fn put_kept<W: Write>(out: &mut W, count: usize) -> Result<()> {
    out.write_all(b" kept")?;
    put_figures(out, &[count])
}

// How many numbers of a block were written to, where so many are lent; below the same of bytes. The figures, one more than a full day
// has, hold the constants.
fn written_numbers(lent: &[usize; MOST_NUMBERS], room: usize) -> usize
    ensures { (result ≤ room) × (result ≤ 10721) }
{
    written(&lent[..room.min(MOST_NUMBERS)], LENT_NUMBER)
}

fn written_bytes(lent: &[u8; MOST_BYTES], room: usize) -> usize
    ensures { (result ≤ room) × (result ≤ 40976) }
{
    written(&lent[..room.min(MOST_BYTES)], LENT_BYTE)
}

// How many elements there are up to the last that is not as it was lent.
fn written<T: Copy + PartialEq>(lent: &[T], before: T) -> usize
    ensures { result ≤ length lent.now }
{
    match lent.iter().rposition(|element| *element != before) {
        Some(last) => last + 1,
        None => 0,
    }
}
