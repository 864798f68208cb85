// One sharing round, and a day's shares.
use crate::lists::{LENT, MOST_ROWS, MOST_WORDS, list, past_list};
use cases::{figures_of, past, put_answer, put_list, word, word_within};
use dayshares::Shares;
use daytable::DayTable;
use std::io::{self, Write};
use units::{Gigajoules, Refusal};

pub fn answer_round<W: Write>(out: &mut W, given: &[u8]) -> io::Result<()> {
    let mut shares = [LENT; MOST_ROWS];
    let room = word_within(given, 1, MOST_ROWS);
    let weights = past(given, 2);
    let needs = past_list(weights);
    let mut lent = [0; MOST_WORDS];
    let (weights, rest) = list(weights, &mut lent);
    let (needs, _) = list(needs, rest);
    let round = rounds::share_round(
        Gigajoules(word(given, 0)),
        weights,
        needs,
        &mut shares[..room],
    );
    put_answer(
        out,
        b"share_round",
        round.map(|shared| [shared.level, shared.total.0 as u64]),
    )?;
    put_list(out, &shares[..room])
}

pub fn answer_day<W: Write>(out: &mut W, given: &[u8]) -> io::Result<()> {
    let mut firm = [LENT; MOST_ROWS];
    let mut auction = [LENT; MOST_ROWS];
    let mut lower_tier = [LENT; MOST_ROWS];
    let firm_room = word_within(given, 2, MOST_ROWS);
    let auction_room = word_within(given, 3, MOST_ROWS);
    let lower_tier_room = word_within(given, 4, MOST_ROWS);
    let day = share_day(
        given,
        &mut firm[..firm_room],
        &mut auction[..auction_room],
        &mut lower_tier[..lower_tier_room],
    );
    put_answer(out, b"share_day", day.map(|shares| figures_of(shares)))?;
    put_list(out, &firm[..firm_room])?;
    put_list(out, &auction[..auction_room])?;
    put_list(out, &lower_tier[..lower_tier_room])
}

fn share_day(
    given: &[u8],
    firm: &mut [u32],
    auction: &mut [u32],
    lower_tier: &mut [u32],
) -> Result<Shares, Refusal> {
    let firm_mdq = past(given, 5);
    let auction_mdq = past_list(firm_mdq);
    let firm_schedule = past_list(auction_mdq);
    let auction_schedule = past_list(firm_schedule);
    let lower_tier_schedule = past_list(auction_schedule);
    let mut lent = [0; MOST_WORDS];
    let (firm_mdq, rest) = list(firm_mdq, &mut lent);
    let (auction_mdq, rest) = list(auction_mdq, rest);
    let (firm_schedule, rest) = list(firm_schedule, rest);
    let (auction_schedule, rest) = list(auction_schedule, rest);
    let (lower_tier_schedule, _) = list(lower_tier_schedule, rest);
    dayshares::share_day(
        &DayTable {
            free_flow: Gigajoules(word(given, 0)),
            compressor: Gigajoules(word(given, 1)),
            firm_mdq,
            auction_mdq,
            firm_schedule,
            auction_schedule,
            lower_tier_schedule,
        },
        firm,
        auction,
        lower_tier,
    )
}
