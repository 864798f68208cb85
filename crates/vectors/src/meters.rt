// The overruns of a day.
ghost use Rattle.std.specs.Prelude.{◌≤◌};

use crate::lists::{MOST_ROWS, past_list, wide_list};
use cases::{past, put_answer, wide, word};
use metered::Side;
use overruns::{ExcusedHours, Overruns, ShipperDay};
use std::io::{Result, Write};
use units::{Gigajoules, Megajoules};

// Hours, a pair of words each: yesterday's 11, or the 24 of one side. The hour is what is asked for, so the loop is over hours.
fn hours_of<const N: usize>(given: &[u8]) -> [Megajoules; N]
    requires { N ≤ 24 }
{
    let mut hours = [Megajoules(0); N];
    for hour in 0..N {
        hours[hour] = Megajoules(wide(given, 2 * hour));
    }
    hours
}

// Both sides' hours, delivered first.
fn sides_of(given: &[u8]) -> [[Megajoules; 24]; 2] {
    let delivered = hours_of(given);
    let received = hours_of(past(given, 48));
    [delivered, received]
}

// A side's single figures: schedules, forward and backhaul, and the backhaul metered.
fn side_of(given: &[u8]) -> Side {
    Side {
        forward: Gigajoules(word(given, 0)),
        backhaul: Gigajoules(word(given, 1)),
        metered: Megajoules(wide(given, 2)),
    }
}

pub fn answer_hourly<W: Write>(out: &mut W, given: &[u8]) -> Result<()> {
    let overrun = overruns::hourly_overrun(
        Gigajoules(word(given, 0)),
        sides_of(past(given, 1)),
        sides_of(past(given, 97)),
    );
    put_answer(out, b"hourly_overrun", overrun.map(|over| [over.0]))
}

pub fn answer_twelve_hourly<W: Write>(out: &mut W, given: &[u8]) -> Result<()> {
    let lists = past(given, 2);
    let overrun = overruns::twelve_hourly_overrun(
        Gigajoules(word(given, 0)),
        Gigajoules(word(given, 1)),
        wide_list(lists, &mut [0; MOST_ROWS]),
        wide_list(past_list(lists), &mut [0; MOST_ROWS]),
    );
    put_answer(out, b"twelve_hourly_overrun", overrun.map(|over| [over.0]))
}

pub fn answer_daily<W: Write>(out: &mut W, given: &[u8]) -> Result<()> {
    let daily = overruns::daily_overruns(
        sides_of(past(given, 8)),
        side_of(given),
        side_of(past(given, 4)),
    );
    put_answer(
        out,
        b"daily_overruns",
        daily.map(|over| [over.receipt.0, over.delivery.0]),
    )
}

pub fn answer_overruns<W: Write>(out: &mut W, given: &[u8]) -> Result<()> {
    let day = ShipperDay {
        p: Gigajoules(word(given, 0)),
        m: Gigajoules(word(given, 1)),
        yesterday: hours_of(past(given, 10)),
        hours: sides_of(past(given, 32)),
        receipt: side_of(past(given, 2)),
        delivery: side_of(past(given, 6)),
    };
    let excused = ExcusedHours {
        yesterday: hours_of(past(given, 128)),
        hours: sides_of(past(given, 150)),
    };
    let over = overruns::overruns_of_day(&day, &excused);
    put_answer(out, b"overruns_of_day", over.map(figures_of))
}

fn figures_of(over: Overruns) -> [u64; 5] {
    [
        over.hourly.0,
        over.twelve_hourly.0,
        over.daily_receipt.0,
        over.daily_delivery.0,
        over.greatest.0,
    ]
}
