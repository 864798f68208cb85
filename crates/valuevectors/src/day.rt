// A day in memory: its head and counts, then how many numbers it has, and two byte strings of their halves. A number past these is 0.
ghost use Rattle.std.specs.Prelude.{◌≤◌};

use cases::{bytes, of_halves, past, past_bytes, word_within};
use dayformat::Day;
use dayrows::Tables;

// What a lent list holds before the call: no answer has it.
pub const LENT: u32 = 4_000_000_000;

// No lent list has more room: one more than a list of shippers may have. Lists are arrays, for there is no heap.
pub const MOST_ROWS: usize = 65;

// No day has more numbers: one more than a full one.
pub const MOST_NUMBERS: usize = dayformat::MOST_NUMBERS + 1;

// What a routine is given: a day, its numbers, and what else the case has.
#[derive(Clone, Copy)]
pub struct Given<'a> {
    pub day: Day,
    pub numbers: &'a [usize],
    pub rest: &'a [u8],
}

impl<'a> Given<'a> {
    pub fn tables(self) -> Tables<'a> {
        Tables {
            counts: self.day.counts,
            numbers: self.numbers,
        }
    }
}

// How many numbers it has.
pub fn length_of(case: &[u8]) -> usize
    ensures { result ≤ 10721 }
{
    word_within(case, 8, MOST_NUMBERS)
}

// Its numbers, laid in a lent block of so many. `from_fn` would make all 10,721, and copy them twice.
pub fn numbers_of<'a>(case: &[u8], lent: &'a mut [usize]) -> &'a [usize] {
    let halves = past(case, 9);
    let lower = bytes(halves);
    let higher = bytes(past_bytes(halves));
    for (place, number) in lent.iter_mut().enumerate() {
        *number = of_halves(higher, lower, place);
    }
    lent
}

// What follows the day.
pub fn past_day(case: &[u8]) -> &[u8] {
    past_bytes(past_bytes(past(case, 9)))
}
