// The account where it is.
use crate::account::{account_of, day_of, past_account};
use crate::answers::{LENT_BYTE, MOST_ROOM, put_closed, put_taken, put_totalled, room_at};
use month::{Account, AccountDay, Closed, Taken, Totalled};
use std::io::{Result, Write};

pub fn answer_take_in<W: Write>(out: &mut W, given: &[u8]) -> Result<()> {
    let taken = take_in(account_of(given), day_of(past_account(given)));
    put_taken(out, b"record_take_in", taken)
}

pub fn answer_total_up<W: Write>(out: &mut W, given: &[u8]) -> Result<()> {
    put_totalled(out, b"record_total_up", total_up(account_of(given)))
}

pub fn answer_close<W: Write>(out: &mut W, given: &[u8]) -> Result<()> {
    let room = room_at(past_account(given), 0);
    let mut lent = [LENT_BYTE; MOST_ROOM];
    let closed = close(account_of(given), &mut lent[..room]);
    put_closed(out, b"record_close", closed, &lent[..room])
}

// Each lends an account of its own, and hands it back as it is afterwards.
fn take_in(account: Account, day: AccountDay) -> Taken {
    let mut held = account;
    let found = monthrecord::take_in(&mut held, day);
    Taken {
        account: held,
        found,
    }
}

fn total_up(account: Account) -> Totalled {
    let mut held = account;
    let total = monthrecord::total_up(&mut held);
    Totalled {
        account: held,
        total,
    }
}

fn close(account: Account, lent: &mut [u8]) -> Closed {
    let mut held = account;
    let listing = monthrecord::close(&mut held, lent);
    Closed {
        account: held,
        listing,
    }
}
