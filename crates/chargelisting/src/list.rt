// A day's listing of charges.
ghost use Rattle.std.specs.Prelude.{Ok};
ghost use Rattle.lines.specs.Answer.{ListingAnswered};
ghost use Rattle.dayrows.specs.Private.{Sound};
ghost use Rattle.dayfile.specs.File.{walked};
ghost use Rattle.dayruns.specs.Walk.{file_check};
ghost use Rattle.chargelisting.specs.ChargesText.{charges_text, charges_check, charges_listing};

use crate::chargestext::Charges;
use dayfile::read_day;
use dayformat::{Day, MOST_NUMBERS, numbers_of};
use lines::list;
use units::{MOST_RATE, Rate, Refusal};

// Lists a day file's overrun charges at a rate: the text goes to the front of a lent block.
pub fn list_charges(file: &[u8], rate: Rate, lent: &mut [u8]) -> Result<usize, Refusal>
    ensures { ListingAnswered (charges_check rate file.now) (charges_listing rate file.now)
        lent.old lent.new result }
{
    if MOST_RATE.0 < rate.0 {
        return Err(Refusal::plain(3));
    }
    list_file(file, rate, lent)
}

fn list_file(file: &[u8], rate: Rate, lent: &mut [u8]) -> Result<usize, Refusal>
    ensures { ListingAnswered (file_check (walked file.now)) (charges_listing rate file.now)
        lent.old lent.new result }
{
    let mut numbers = [0usize; MOST_NUMBERS];
    let day = read_day(file, &mut numbers)?;
    let count = numbers_of(day.counts);
    list_day(day, rate, &numbers[..count], lent)
}

// A sound day's listing; 7 exactly when its text is longer than the block.
fn list_day(day: Day, rate: Rate, numbers: &[usize], lent: &mut [u8]) -> Result<usize, Refusal>
    requires { Sound day numbers.now }
    ensures { ListingAnswered (Ok tt) (charges_text rate day numbers.now) lent.old lent.new result }
{
    list(&Charges { day, rate, numbers }, lent)
}
