// The day file's reader.
ghost use Rattle.std.specs.Prelude.{◌≡◌};
ghost use Rattle.dayformat.specs.Layout.{numbers_in};
ghost use Rattle.dayruns.specs.Walk.{file_check};
ghost use Rattle.dayfile.specs.File.{walked};
ghost use Rattle.cormcushion.specs.Packed.{packed_check};
ghost use Rattle.cormcushion.specs.Answers.{day_figures, with_day};
ghost use Rattle.cormcushion.specs.Lent.{ReadingPacked};

use crate::answers::of_reading;
use dayfile::read_day;
use dayformat::{Day, MOST_NUMBERS};
use units::Refusal;

// The check of a day file alone: how many numbers its day has.
pub fn cormcushion_check_day(file: &[u8]) -> u64
    ensures { result ≡ packed_check (file_check (walked file.now)) (numbers_in (walked file.now).counts) }
{
    let mut numbers = [0usize; MOST_NUMBERS];
    of_reading(read_day(file, &mut numbers))
}

// A day file read: how many numbers the day has, with them at the front of the lent block, and the head and the counts in `day`.
pub fn cormcushion_read_day(file: &[u8], day: &mut [u32; 8], numbers: &mut [usize]) -> u64
    ensures { ReadingPacked file.now day.old numbers.old result
        day.new numbers.new }
{
    let reading = read_day(file, numbers);
    put_day(reading, day);
    of_reading(reading)
}

// Day, free flow and compressor capacity; then how many shippers, points, entries, meters and fields of excused gas.
fn figures_of(day: Day) -> [u32; 8]
    ensures { result ≡ day_figures day }
{
    let head = day.head;
    let counts = day.counts;
    [
        head.day,
        head.free_flow.0,
        head.compressor.0,
        counts.shippers,
        counts.points,
        counts.entries,
        counts.meters,
        counts.excused,
    ]
}

// A refusal leaves them as they were.
fn put_day(reading: Result<Day, Refusal>, lent: &mut [u32; 8])
    ensures { lent.new ≡ with_day reading lent.old }
{
    if let Ok(day) = reading {
        *lent = figures_of(day);
    }
}
