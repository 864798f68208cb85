// Days as rows of eight numbers.
use crate::answers::{LENT_BYTE, MOST_ROOM, put_listing, room_at};
use cases::{past, wide, word_within};
use std::io::{Result, Write};

// No list has more: 33 rows, in an array.
const MOST_NUMBERS: usize = 264;

pub fn answer_list<W: Write>(out: &mut W, given: &[u8]) -> Result<()> {
    let count = word_within(given, 0, MOST_NUMBERS);
    let room = room_at(given, 1 + 2 * count);
    let mut numbers = [0; MOST_NUMBERS];
    let mut lent = [LENT_BYTE; MOST_ROOM];
    let listing = monthlisting::list_month(
        numbers_of(past(given, 1), &mut numbers[..count]),
        &mut lent[..room],
    );
    put_listing(out, b"list_month", listing, &lent[..room])
}

// Its numbers, laid in a lent block of so many.
fn numbers_of<'a>(given: &[u8], lent: &'a mut [u64]) -> &'a [u64] {
    for (place, number) in lent.iter_mut().enumerate() {
        *number = wide(given, 2 * place);
    }
    lent
}
