// The tests of an account and of a day to be taken in, all at place 0: first 3, then 5.
ghost use Rattle.std.specs.Prelude.{◌≡◌, ◌≤◌};
ghost use Rattle.units.specs.Each.{each};
ghost use Rattle.month.specs.Days.{most_days, later};
ghost use Rattle.month.specs.Figures.{figures_check};
ghost use Rattle.month.specs.Account.{day_at, account_check, taking_check};

use crate::account::{Account, AccountDay, MOST_DAYS};
use units::{Refusal, keep};

// An account may hold anything: its count, its days' figures, then that their numbers rise.
#[tactic(auto, unfolding(crate::specs::Days::days_check, units::specs::Refusals::first_refusal))]
pub fn examine_account(account: Account) -> Result<(), Refusal>
    ensures { result ≡ account_check account }
{
    keep(account.count <= MOST_DAYS, 3)?;
    examine_figures(account)?;
    examine_numbers(account)
}

// A 32nd day, its figures, the account; then that it is later than the last.
#[tactic(auto, unfolding(crate::specs::Days::next_check, units::specs::Refusals::first_refusal))]
pub fn examine_next(account: Account, day: AccountDay) -> Result<(), Refusal>
    ensures { result ≡ taking_check account day }
{
    let count = account.count;
    keep(count < MOST_DAYS, 3)?;
    day.figures.check()?;
    examine_account(account)?;
    examine_later(account, count, day.number)
}

fn examine_figures(account: Account) -> Result<(), Refusal>
    requires { account.count ≤ most_days }
    ensures { result ≡ each account.count (λ row. figures_check (day_at account row).figures) }
{
    for row in 0..account.count {
        let day = account.days[row];
        day.figures.check()?;
    }
    Ok(())
}

fn examine_numbers(account: Account) -> Result<(), Refusal>
    requires { account.count ≤ most_days }
    ensures { result ≡ each account.count (λ row. later (day_at account) row (day_at account row).number) }
{
    for row in 0..account.count {
        let day = account.days[row];
        examine_later(account, row, day.number)?;
    }
    Ok(())
}

// 5 unless a day's number is later than that of the last day before its row.
#[tactic(auto, unfolding(crate::specs::Days::later))]
fn examine_later(account: Account, row: usize, number: u32) -> Result<(), Refusal>
    requires { row ≤ most_days }
    ensures { result ≡ later (day_at account) row number }
{
    if row == 0 {
        return Ok(());
    }
    let last = account.days[row - 1];
    keep(last.number < number, 5)
}
