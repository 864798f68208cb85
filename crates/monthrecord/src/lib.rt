// A month's account as one record, updated where it is: each function copies it out, calls the method by value and stores what comes back.
#![tactic(auto)]

ghost use Rattle.std.specs.Prelude.{◌≡◌};
ghost use Rattle.month.specs.Account.{take_in};
ghost use Rattle.month.specs.Total.{total_up};
ghost use Rattle.month.specs.Statement.{ClosingAnswered};

use month::{Account, AccountDay, Figures};
use units::Refusal;

// Takes a day in. A refused day changes nothing.
pub fn take_in(account: &mut Account, day: AccountDay) -> Result<(), Refusal>
    ensures { take_in account.old day ≡ record { account = account.new; found = result } }
{
    let taken = Account::take_in(*account, day);
    *account = taken.account;
    taken.found
}

// Totals up. The account is as it was.
pub fn total_up(account: &mut Account) -> Result<Figures, Refusal>
    ensures { total_up account.old ≡ record { account = account.new; total = result } }
{
    let totalled = Account::total_up(*account);
    *account = totalled.account;
    totalled.total
}

// Closes the month: its statement stands at the front of the lent block, and the account is empty. A refusal changes nothing.
pub fn close(account: &mut Account, lent: &mut [u8]) -> Result<usize, Refusal>
    ensures { ClosingAnswered account.old lent.old lent.new
        (record { account = account.new; listing = result }) }
{
    let closed = Account::close(*account, lent);
    *account = closed.account;
    closed.listing
}
