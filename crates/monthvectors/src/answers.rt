// A line of the answers: 01's number and place, the figures, the lent block whole, and the account as it is afterwards.
ghost use Rattle.std.specs.Prelude.{◌+◌, ◌≤◌};
ghost use Rattle.month.specs.Statement.{most_statement};

use cases::{put_answer, put_block, put_figures, put_list, put_verdict, word_within};
use month::{Account, AccountDay, Closed, Figures, Taken, Totalled};
use std::io::{self, Write};
use units::Refusal;

// What a lent byte is before the call.
pub const LENT_BYTE: u8 = 255;

// No block has more room: one byte more than the longest statement. Blocks are arrays, for there is no heap.
pub const MOST_ROOM: usize = month::MOST_STATEMENT + 1;

// How many bytes are lent. By the definition, so that the constant is held to it.
pub fn room_at(given: &[u8], place: usize) -> usize
    ensures { result ≤ most_statement + 1 }
{
    word_within(given, place, MOST_ROOM)
}

// An account after a day was handed in.
pub fn put_taken<W: Write>(out: &mut W, routine: &[u8], taken: Taken) -> io::Result<()> {
    put_answer(out, routine, taken.found.map(|()| []))?;
    put_account(out, taken.account)
}

// An account and its total.
pub fn put_totalled<W: Write>(out: &mut W, routine: &[u8], totalled: Totalled) -> io::Result<()> {
    put_verdict(out, routine, totalled.total.map(sums_of))?;
    put_account(out, totalled.account)
}

// A text's size, zero where it is refused, and the block that was lent for it, whole.
pub fn put_listing<W: Write>(
    out: &mut W,
    routine: &[u8],
    listing: Result<usize, Refusal>,
    lent: &[u8],
) -> io::Result<()> {
    put_verdict(out, routine, listing.map(|size| [size as u64]))?;
    put_block(out, lent)
}

// The same of an account that was closed.
pub fn put_closed<W: Write>(
    out: &mut W,
    routine: &[u8],
    closed: Closed,
    lent: &[u8],
) -> io::Result<()> {
    put_listing(out, routine, closed.listing, lent)?;
    put_account(out, closed.account)
}

// Its count, then its days up to the last that is not all zeros.
pub fn put_account<W: Write>(out: &mut W, account: Account) -> io::Result<()> {
    put_list(out, &[account.count])?;
    for day in &account.days[..told_of(account)] {
        put_figures(out, &[day.number])?;
        put_figures(out, &sums_of(day.figures))?;
    }
    Ok(())
}

fn told_of(account: Account) -> usize
    ensures { result ≤ 31 }
{
    match account.days.iter().rposition(|day| is_told(*day)) {
        Some(last) => last + 1,
        None => 0,
    }
}

fn is_told(day: AccountDay) -> bool {
    0 < day.number || sums_of(day.figures).iter().any(|sum| 0 < *sum)
}

// The seven figures of a day, or their sums over a month.
pub fn sums_of(figures: Figures) -> [u64; 7] {
    [
        figures.hourly.0,
        figures.twelve_hourly.0,
        figures.daily_receipt.0,
        figures.daily_delivery.0,
        figures.chargeable.0,
        figures.variation.0,
        figures.request.0,
    ]
}
