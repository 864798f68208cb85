// The day file's writer, opened.
#![tactic(auto)]

mod examine;
mod put;

ghost use Rattle.daywriter.specs.Answer.{WrittenAnswered};

use crate::examine::examine;
use crate::put::put_day;
use dayformat::{Day, file_size};
use units::{Refusal, keep};

// Writes a day's file to the front of a lent block.
#[tactic(auto, unfolding(crate::specs::Acceptance::written_check, units::specs::Refusals::first_refusal))]
pub fn write_day(day: Day, numbers: &[usize], block: &mut [u8]) -> Result<usize, Refusal>
    ensures { WrittenAnswered day numbers.now block.old block.new result }
{
    let size = file_size(day.counts);
    examine(day, numbers)?;
    keep(size <= block.len(), 7)?;
    put_day(day, numbers, block);
    Ok(size)
}
