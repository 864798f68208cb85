// A day of readings, run on cases of the second program: each is read, and its answer printed on a line.
#![tactic(auto)]

mod hours;

use cases::{Answers, answer_cases, past, word};
use std::io::{Result, Write};

// No case has more words: its routine, and five for each hour.
const MOST_WORDS: usize = 121;

struct Readings;

impl Answers for Readings {
    // A case's first word is its routine.
    fn answer<W: Write>(out: &mut W, case: &[u8]) -> Result<()> {
        match word(case, 0) {
            1 => hours::answer_meter_day(out, past(case, 1)),
            _ => Ok(()),
        }
    }
}

// Each program of cases has a `main` of its own, for the block that it lends.
fn main(rt: HostRuntime) -> Result<()> {
    let mut lent = [0u8; 4 * MOST_WORDS];
    answer_cases::<Readings, _, _>(&mut rt.stdin(), &mut rt.stdout(), &mut lent)
}
