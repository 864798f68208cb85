// The routines run on cases of the second program: each case is read from standard input, and the routine's answer printed on a line.
#![tactic(auto)]

mod charges;
mod gas;
mod lists;
mod meters;
mod shares;

use cases::{Answers, answer_cases, past, word};
use lists::MOST_WORDS;
use std::io::{Result, Write};

struct Rules;

impl Answers for Rules {
    // A case's first word is its routine.
    fn answer<W: Write>(out: &mut W, case: &[u8]) -> Result<()> {
        let given = past(case, 1);
        match word(case, 0) {
            1 => shares::answer_round(out, given),
            2 => shares::answer_day(out, given),
            3 => gas::answer_hour(out, given),
            4 => gas::answer_general(out, given),
            5 => gas::answer_heater(out, given),
            6 => gas::answer_fuel(out, given),
            7 => meters::answer_hourly(out, given),
            8 => meters::answer_twelve_hourly(out, given),
            9 => meters::answer_daily(out, given),
            10 => meters::answer_overruns(out, given),
            11 => charges::answer_overrun(out, given),
            12 => charges::answer_variation(out, given),
            13 => charges::answer_request(out, given),
            14 => charges::answer_escalation(out, given),
            _ => Ok(()),
        }
    }
}

// Each program of cases has a `main` of its own, for the block that it lends.
fn main(rt: HostRuntime) -> Result<()> {
    let mut lent = [0u8; 4 * MOST_WORDS];
    answer_cases::<Rules, _, _>(&mut rt.stdin(), &mut rt.stdout(), &mut lent)
}
