// The routines on files, run on cases of the second program: each case is read from standard input, and its answer printed on a line.
#![tactic(auto)]

mod days;
mod entries;
mod lent;
mod texts;

use cases::{Answers, answer_cases, past, word};
use std::io::{Result, Write};

// No case has more bytes: what a large buffer holds.
const MOST_BYTES: usize = streams::LARGE_BUFFER;

struct Files;

impl Answers for Files {
    // A case's first word is its routine.
    fn answer<W: Write>(out: &mut W, case: &[u8]) -> Result<()> {
        let given = past(case, 1);
        match word(case, 0) {
            1 => days::answer_reading(out, given),
            2 => days::answer_writing(out, given),
            3 => entries::answer_check(out, given),
            4 => entries::answer_part(out, given),
            5 => texts::answer_refusal(out, given),
            6 => texts::answer_shares(out, given),
            7 => texts::answer_charges(out, given),
            8 => texts::answer_points(out, given),
            _ => Ok(()),
        }
    }
}

// Each program of cases has a `main` of its own, for the block that it lends.
fn main(rt: HostRuntime) -> Result<()> {
    let mut lent = [0u8; MOST_BYTES];
    answer_cases::<Files, _, _>(&mut rt.stdin(), &mut rt.stdout(), &mut lent)
}
