// The routines on a day in memory, run on cases of the second program: each case is read from standard input, its answer printed on a line.
#![tactic(auto)]

mod day;
mod excused;
mod meters;
mod rows;
mod shippers;
mod texts;

use cases::{Answers, answer_cases, day_of, past, word};
use day::{Given, MOST_NUMBERS, length_of, numbers_of, past_day};
use std::io::{Result, Write};

// No case has more bytes: what a large buffer holds.
const MOST_BYTES: usize = streams::LARGE_BUFFER;

struct Values;

impl Answers for Values {
    // A case's first word is its routine; of most routines a day is the next argument.
    fn answer<W: Write>(out: &mut W, case: &[u8]) -> Result<()> {
        let routine = word(case, 0);
        let given = past(case, 1);
        match routine {
            14 => texts::answer_decimal(out, given),
            _ => answer_day(out, routine, given),
        }
    }
}

// Each program of cases has a `main` of its own, for the block that it lends.
fn main(rt: HostRuntime) -> Result<()> {
    let mut lent = [0u8; MOST_BYTES];
    answer_cases::<Values, _, _>(&mut rt.stdin(), &mut rt.stdout(), &mut lent)
}

fn answer_day<W: Write>(out: &mut W, routine: u32, case: &[u8]) -> Result<()> {
    let mut lent = [0; MOST_NUMBERS];
    let given = Given {
        day: day_of(case),
        numbers: numbers_of(case, &mut lent[..length_of(case)]),
        rest: past_day(case),
    };
    match routine {
        1 => rows::answer_number(out, given),
        2 => rows::answer_row(out, given),
        3 => rows::answer_shipper(out, given),
        4 => rows::answer_point(out, given),
        5 => shippers::answer_check(out, given),
        6 => shippers::answer_column(out, given),
        7 => shippers::answer_shares(out, given),
        8 => meters::answer_check(out, given),
        9 => meters::answer_figures(out, given),
        10 => meters::answer_yesterday(out, given),
        11 => meters::answer_hours(out, given),
        12 => meters::answer_delivered(out, given),
        13 => texts::answer_hour(out, given),
        15 => excused::answer_check(out, given),
        16 => excused::answer_shipper(out, given),
        17 => excused::answer_row(out, given),
        18 => excused::answer_yesterday(out, given),
        19 => excused::answer_hours(out, given),
        _ => Ok(()),
    }
}
