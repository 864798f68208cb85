// A list of a case: how many words it has, then the words, as far as there are any.
use cases::{past, wide, word, word_within};

// No case has more words, so all its lists together have no more. They are laid in arrays, for there is no heap.
pub const MOST_WORDS: usize = 512;

// No list of 64 bits has more rows, and no lent list more room: one more than a list of shippers may have.
pub const MOST_ROWS: usize = 65;

// What a lent list holds before the call: no answer has it.
pub const LENT: u32 = 4_000_000_000;

// How many of its words there are.
fn words_in(given: &[u8]) -> usize {
    word_within(given, 0, past(given, 1).len() / 4)
}

// The list that stands first, laid at the front of a lent block, and what is left of that. `from_fn` would make all 512 rows.
pub fn list<'a>(given: &[u8], lent: &'a mut [u32]) -> (&'a [u32], &'a mut [u32]) {
    let words = past(given, 1);
    let count = words_in(given).min(lent.len());
    let (rows, rest) = lent.split_at_mut(count);
    for (row, four) in rows.iter_mut().zip(words.chunks_exact(4)) {
        *row = word(four, 0);
    }
    (rows, rest)
}

// The same of numbers of 64 bits, two words each, and no more of them than are lent.
pub fn wide_list<'a>(given: &[u8], lent: &'a mut [u64]) -> &'a [u64] {
    let words = past(given, 1);
    let count = (words_in(given) / 2).min(lent.len());
    let rows = &mut lent[..count];
    for (row, eight) in rows.iter_mut().zip(words.chunks_exact(8)) {
        *row = wide(eight, 0);
    }
    rows
}

// What follows that list.
pub fn past_list(given: &[u8]) -> &[u8] {
    past(given, 1 + word(given, 0) as usize)
}
