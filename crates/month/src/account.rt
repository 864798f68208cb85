// The account of a month, by value: each method takes it and hands it back.
ghost use Rattle.std.specs.Prelude.{◌≡◌};
ghost use Rattle.lines.specs.Answer.{ListingAnswered};
ghost use Rattle.month.specs.Account.{no_days, account_check, take_in};
ghost use Rattle.month.specs.Total.{total_up};
ghost use Rattle.month.specs.Statement.{statement, ClosingAnswered};

use crate::examine::{examine_account, examine_next};
use crate::figures::{Figures, NO_FIGURES, plus};
use crate::statement::list_statement;
use units::Refusal;

// No month has more.
pub const MOST_DAYS: usize = 31;

// One of a shipper's days.
#[derive(Clone, Copy)]
pub struct AccountDay {
    pub number: u32,
    pub figures: Figures,
}

// The days are the first so many; what stands past them is no part of the account. No heap, and any account may be handed in.
#[derive(Clone, Copy)]
pub struct Account {
    pub days: [AccountDay; MOST_DAYS],
    pub count: usize,
}

// The account after a day was handed in, and what was found of the day. C-11 hands it back by value, on a refusal too.
#[derive(Clone, Copy)]
pub struct Taken {
    pub account: Account,
    pub found: Result<(), Refusal>,
}

// The account, and its total: by value as above.
#[derive(Clone, Copy)]
pub struct Totalled {
    pub account: Account,
    pub total: Result<Figures, Refusal>,
}

// The account after it was closed, and how many bytes its statement has: by value as above.
#[derive(Clone, Copy)]
pub struct Closed {
    pub account: Account,
    pub listing: Result<usize, Refusal>,
}

impl Account {
    // An account without days.
    pub fn empty() -> Self
        ensures { result ≡ no_days }
    {
        let day = AccountDay {
            number: 0,
            figures: NO_FIGURES,
        };
        Self {
            days: [day; MOST_DAYS],
            count: 0,
        }
    }

    // Takes a day in. A refused day changes nothing.
    pub fn take_in(mut self, day: AccountDay) -> Taken
        ensures { result ≡ take_in self day }
    {
        let found = examine_next(self, day);
        match found {
            Err(_) => Taken {
                account: self,
                found,
            },
            Ok(()) => {
                let count = self.count;
                self.days[count] = day;
                self.count = count + 1;
                Taken {
                    account: self,
                    found,
                }
            }
        }
    }

    // Totals up: from the last day to the first each is taken off and added. The account comes back as it was.
    pub fn total_up(mut self) -> Totalled
        ensures { result ≡ total_up self }
    {
        let account = self;
        if let Err(refusal) = examine_account(account) {
            return Totalled {
                account,
                total: Err(refusal),
            };
        }
        let mut sums = NO_FIGURES;
        for last in (0..self.count).rev() {
            sums = plus(sums, self.days[last].figures);
            // The days that are left, of which the invariant speaks.
            self.count = last;
        }
        Totalled {
            account,
            total: Ok(sums),
        }
    }

    // Closes the month: its statement stands at the front of the lent block, and the account comes back empty. A refusal changes nothing.
    pub fn close(self, lent: &mut [u8]) -> Closed
        ensures { ClosingAnswered self lent.old lent.new result }
    {
        let listing = list_account(self, lent);
        match listing {
            Err(_) => Closed {
                account: self,
                listing,
            },
            Ok(_) => Closed {
                account: Account::empty(),
                listing,
            },
        }
    }
}

// A sound account's statement, or why there is none.
fn list_account(account: Account, lent: &mut [u8]) -> Result<usize, Refusal>
    ensures { ListingAnswered (account_check account) (statement account) lent.old lent.new result }
{
    let sums = account.total_up().total?;
    list_statement(account, sums, lent)
}
