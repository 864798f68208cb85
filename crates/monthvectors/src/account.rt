// A day and an account, as a case has them.
ghost use Rattle.std.specs.Prelude.{◌≡◌, ◌*◌, ◌≤◌, min};
ghost use Rattle.cases.specs.Case.{past_words, word_at};
ghost use Rattle.month.specs.Days.{most_days};

use cases::{past, wide, word, word_within};
use month::{Account, AccountDay, Figures, MOST_DAYS};
use units::{Cents, Megajoules};

// The words of a day: its number, then two for each figure.
const DAY: usize = 15;

// An account's days stand after its count and how many there are.
const DAYS: usize = 3;

// The day that stands first.
pub fn day_of(given: &[u8]) -> AccountDay {
    AccountDay {
        number: word(given, 0),
        figures: Figures {
            hourly: Megajoules(wide(given, 1)),
            twelve_hourly: Megajoules(wide(given, 3)),
            daily_receipt: Megajoules(wide(given, 5)),
            daily_delivery: Megajoules(wide(given, 7)),
            chargeable: Megajoules(wide(given, 9)),
            variation: Cents(wide(given, 11)),
            request: Cents(wide(given, 13)),
        },
    }
}

// What follows so many days.
pub fn past_days(given: &[u8], days: usize) -> &[u8]
    requires { days ≤ 64 }
    ensures { result.now ≡ past_words given.now (15 * days) }
{
    past(given, DAY * days)
}

// How many of its days an account has told; the others are zeros.
fn told_of(given: &[u8]) -> usize
    ensures { (result ≤ 31) × (result ≡ min (word_at given.now 2) most_days) }
{
    word_within(given, 2, MOST_DAYS)
}

// The account that stands first. Not inlined, for the stack: else each caller has room for one more account.
#[inline(never)]
pub fn account_of(given: &[u8]) -> Account {
    let mut account = Account::empty();
    account.count = wide(given, 0) as usize;
    let days = past(given, DAYS);
    for row in 0..told_of(given) {
        account.days[row] = day_of(past_days(days, row));
    }
    account
}

// What follows it.
pub fn past_account(given: &[u8]) -> &[u8]
    ensures { result.now ≡ past_words (past_words given.now 3) (15 * min (word_at given.now 2) most_days) }
{
    past_days(past(given, DAYS), told_of(given))
}
