// A day's listing of shares.
ghost use Rattle.std.specs.Prelude.{Ok};
ghost use Rattle.columns.specs.Column.{col};
ghost use Rattle.lines.specs.Answer.{ListingAnswered};
ghost use Rattle.dayrows.specs.Private.{Sound};
ghost use Rattle.sharelisting.specs.SharesText.{shares_text, shares_listing};
ghost use Rattle.dayfile.specs.File.{walked};
ghost use Rattle.dayruns.specs.Walk.{file_check};

use crate::sharestext::SharedDay;
use dayfile::read_day;
use dayformat::{Day, MOST_NUMBERS, numbers_of};
use lines::list;
use numbershares::share_numbers;
use units::{MOST_ROWS, Refusal};

// Lists a day file's shares: the text goes to the front of a lent block.
pub fn list_shares(file: &[u8], lent: &mut [u8]) -> Result<usize, Refusal>
    ensures { ListingAnswered (file_check (walked file.now)) (shares_listing file.now)
        lent.old lent.new result }
{
    let mut numbers = [0usize; MOST_NUMBERS];
    let day = read_day(file, &mut numbers)?;
    let count = numbers_of(day.counts);
    list_day(day, &numbers[..count], lent)
}

// A sound day's listing; 7 exactly when its text is longer than the block.
fn list_day(day: Day, numbers: &[usize], lent: &mut [u8]) -> Result<usize, Refusal>
    requires { Sound day numbers.now }
    ensures { ListingAnswered (Ok tt) (shares_text day (col numbers.now)) lent.old lent.new result }
{
    let mut firm = [0u32; MOST_ROWS];
    let mut auction = [0u32; MOST_ROWS];
    let mut lower_tier = [0u32; MOST_ROWS];
    let shares = share_numbers(day, numbers, &mut firm, &mut auction, &mut lower_tier)?;
    let shared = SharedDay {
        day,
        numbers,
        shares,
        firm: &firm,
        auction: &auction,
        lower_tier: &lower_tier,
    };
    list(&shared, lent)
}
