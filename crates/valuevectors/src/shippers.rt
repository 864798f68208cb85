// The columns of a day's shippers, and their shares.
use crate::day::{Given, LENT, MOST_ROWS};
use cases::{figures_of, put_answer, put_list, wide, word, word_within};
use dayvalues::ShipperColumn;
use std::io::{Result, Write};

// The columns by where a row has them, 1 to 5.
fn column_of(place: u32) -> ShipperColumn {
    match place {
        1 => ShipperColumn::FirmMdq,
        2 => ShipperColumn::AuctionMdq,
        3 => ShipperColumn::FirmSchedule,
        4 => ShipperColumn::AuctionSchedule,
        _ => ShipperColumn::LowerTierSchedule,
    }
}

pub fn answer_check<W: Write>(out: &mut W, given: Given) -> Result<()> {
    let column = column_of(word(given.rest, 0));
    let room = wide(given.rest, 1) as usize;
    let check = dayvalues::check_column(given.tables(), column, room);
    put_answer(out, b"check_column", check.map(|()| []))
}

pub fn answer_column<W: Write>(out: &mut W, given: Given) -> Result<()> {
    let mut lent = [LENT; MOST_ROWS];
    let column = column_of(word(given.rest, 0));
    let room = word_within(given.rest, 1, MOST_ROWS);
    let listed = dayvalues::shipper_column(given.tables(), column, &mut lent[..room]);
    put_answer(out, b"shipper_column", listed.map(|rows| [rows as u64]))?;
    put_list(out, &lent[..room])
}

pub fn answer_shares<W: Write>(out: &mut W, given: Given) -> Result<()> {
    let mut firm = [LENT; MOST_ROWS];
    let mut auction = [LENT; MOST_ROWS];
    let mut lower_tier = [LENT; MOST_ROWS];
    let firm_room = word_within(given.rest, 0, MOST_ROWS);
    let auction_room = word_within(given.rest, 1, MOST_ROWS);
    let lower_tier_room = word_within(given.rest, 2, MOST_ROWS);
    let shared = numbershares::share_numbers(
        given.day,
        given.numbers,
        &mut firm[..firm_room],
        &mut auction[..auction_room],
        &mut lower_tier[..lower_tier_room],
    );
    put_answer(
        out,
        b"share_numbers",
        shared.map(|shares| figures_of(shares)),
    )?;
    put_list(out, &firm[..firm_room])?;
    put_list(out, &auction[..auction_room])?;
    put_list(out, &lower_tier[..lower_tier_room])
}
