// A month's account, by value and where it is, run on cases of the second program: each is read, and its answer printed on a line.
#![tactic(auto)]

mod account;
mod answers;
mod listing;
mod record;
mod value;

use cases::{Answers, answer_cases, past, word};
use std::io::{Result, Write};

// No case has more words.
const MOST_WORDS: usize = 1_024;

struct Months;

impl Answers for Months {
    // A case's first word is its routine.
    fn answer<W: Write>(out: &mut W, case: &[u8]) -> Result<()> {
        let given = past(case, 1);
        match word(case, 0) {
            1 => value::answer_take_in(out, given),
            2 => value::answer_total_up(out, given),
            3 => value::answer_close(out, given),
            4 => record::answer_take_in(out, given),
            5 => record::answer_total_up(out, given),
            6 => record::answer_close(out, given),
            7 => listing::answer_list(out, given),
            8 => value::answer_hand_in(out, given),
            _ => Ok(()),
        }
    }
}

// Each program of cases has a `main` of its own, for the block that it lends.
fn main(rt: HostRuntime) -> Result<()> {
    let mut lent = [0u8; 4 * MOST_WORDS];
    answer_cases::<Months, _, _>(&mut rt.stdin(), &mut rt.stdout(), &mut lent)
}
