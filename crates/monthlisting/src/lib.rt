// From days as rows of eight numbers to the text of their month's statement.
#![tactic(auto)]

mod rows;

ghost use Rattle.std.specs.Prelude.{◌≡◌, ◌%◌, eqb, length, Ok};
ghost use Rattle.units.specs.Refusals.{◌then◌, keep};
ghost use Rattle.lines.specs.Answer.{ListingAnswered};
ghost use Rattle.monthlisting.specs.Rows.{row_long, month_check, month_listing};

use rows::{ROW, hand_in};
use units::{Refusal, keep};

// Lists a month: the rows' days are handed in one after another to an account that begins empty, which is then closed.
pub fn list_month(numbers: &[u64], lent: &mut [u8]) -> Result<usize, Refusal>
    ensures { ListingAnswered (month_check numbers.now) (month_listing numbers.now)
        lent.old lent.new result }
{
    let handed = hand_in(numbers);
    examine(numbers, handed.found)?;
    handed.account.close(lent).listing
}

// 9 unless the rows are whole, then what was found of their days.
#[tactic(auto, unfolding(units::specs::Refusals::first_refusal))]
fn examine(numbers: &[u64], found: Result<(), Refusal>) -> Result<(), Refusal>
    ensures { result ≡ (Ok tt then keep (eqb (length numbers.now % row_long) 0) 9 then found) }
{
    keep(numbers.len() % ROW == 0, 9)?;
    found
}
