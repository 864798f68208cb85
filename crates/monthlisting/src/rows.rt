// A day as a row of eight numbers, and rows handed in one after another.
ghost use Rattle.std.specs.Prelude.{◌≡◌, ◌≤◌, ◌<◌};
ghost use Rattle.month.specs.Days.{most_day_number};
ghost use Rattle.monthlisting.specs.Rows.{row_number, row_day, days_in};
ghost use Rattle.monthlisting.specs.Private.{RowTaken, HandedIn};

use month::{Account, AccountDay, Figures, Taken};
use units::{Cents, Megajoules, Refusal, placed};

// A day's number, then its seven figures.
pub const ROW: usize = 8;

// The account after all rows; at the first day refused its number, and its row as the place.
pub fn hand_in(numbers: &[u64]) -> Taken
    ensures { HandedIn numbers.now result }
{
    let rows = numbers.len() / ROW;
    let mut account = Account::empty();
    for row in 0..rows {
        let taken = take_row(account, numbers, row);
        if let Err(_) = taken.found {
            return Taken {
                account,
                found: placed(taken.found, row),
            };
        }
        account = taken.account;
    }
    Taken {
        account,
        found: Ok(()),
    }
}

// Takes a row's day in; 3 where its number is not one of 32 bits.
fn take_row(account: Account, numbers: &[u64], row: usize) -> Taken
    requires { row < days_in numbers.now }
    ensures { RowTaken account numbers.now row result }
{
    let number = numbers[row * ROW];
    if number > u32::MAX as u64 {
        return Taken {
            account,
            found: Err(Refusal::plain(3)),
        };
    }
    account.take_in(day_of(numbers, row))
}

// The day that a row spells.
fn day_of(numbers: &[u64], row: usize) -> AccountDay
    requires { (row < days_in numbers.now) × (row_number numbers.now row ≤ most_day_number) }
    ensures { result ≡ row_day numbers.now row }
{
    let at = row * ROW;
    AccountDay {
        number: numbers[at] as u32,
        figures: Figures {
            hourly: Megajoules(numbers[at + 1]),
            twelve_hourly: Megajoules(numbers[at + 2]),
            daily_receipt: Megajoules(numbers[at + 3]),
            daily_delivery: Megajoules(numbers[at + 4]),
            chargeable: Megajoules(numbers[at + 5]),
            variation: Cents(numbers[at + 6]),
            request: Cents(numbers[at + 7]),
        },
    }
}
