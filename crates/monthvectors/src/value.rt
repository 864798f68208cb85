// The account by value.
use crate::account::{account_of, day_of, past_account, past_days};
use crate::answers::{
    LENT_BYTE, MOST_ROOM, put_account, put_closed, put_taken, put_totalled, room_at, sums_of,
};
use cases::{past, put_answer, put_figures, put_list, word_within};
use month::Account;
use std::io::{Result, Write};

pub fn answer_take_in<W: Write>(out: &mut W, given: &[u8]) -> Result<()> {
    let day = day_of(past_account(given));
    put_taken(out, b"take_in", account_of(given).take_in(day))
}

pub fn answer_total_up<W: Write>(out: &mut W, given: &[u8]) -> Result<()> {
    put_totalled(out, b"total_up", account_of(given).total_up())
}

pub fn answer_close<W: Write>(out: &mut W, given: &[u8]) -> Result<()> {
    let room = room_at(past_account(given), 0);
    let mut lent = [LENT_BYTE; MOST_ROOM];
    let closed = account_of(given).close(&mut lent[..room]);
    put_closed(out, b"close", closed, &lent[..room])
}

// Days handed in one after another, going on past refused ones: each refusal's number, 0 for none, then the sums and the account.
pub fn answer_hand_in<W: Write>(out: &mut W, given: &[u8]) -> Result<()> {
    put_answer(out, b"hand_in", Ok([]))?;
    let account = hand_in(out, given)?;
    match account.total_up().total {
        Err(_) => put_list::<u64, W>(out, &[])?,
        Ok(sums) => put_list(out, &sums_of(sums))?,
    }
    put_account(out, account)
}

// No month has more days handed in.
const MOST_HANDED: usize = 64;

fn hand_in<W: Write>(out: &mut W, given: &[u8]) -> Result<Account> {
    let days = past(given, 1);
    let mut account = Account::empty();
    for row in 0..word_within(given, 0, MOST_HANDED) {
        let taken = account.take_in(day_of(past_days(days, row)));
        let number = taken.found.map_or_else(|refusal| refusal.number, |()| 0);
        put_figures(out, &[number as u32])?;
        account = taken.account;
    }
    Ok(account)
}
