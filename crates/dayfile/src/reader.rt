// The reader: a file walked through with numbers of our own, which go into the lent block where the whole file is sound.
ghost use Rattle.std.specs.Prelude.{◌≡◌, ◌≤◌, leb, length};
ghost use Rattle.std.proofs.lemmas.List.Edits.{sets};
ghost use Rattle.columns.specs.Column.{col, listed};
ghost use Rattle.units.specs.Refusals.{◌then◌, keep};
ghost use Rattle.dayformat.specs.Layout.{numbers_in};
ghost use Rattle.dayruns.specs.Walk.{file_check};
ghost use Rattle.dayfile.specs.File.{head_of};
ghost use Rattle.dayfile.specs.Answer.{ReadingAnswered};

use crate::walk::walk_file;
use bigendian::number_at;
use dayformat::{Day, GIGAJOULES, HEADER, Head, MOST_NUMBERS, NUMBER, numbers_of};
use dayruns::Walk;
use units::{Gigajoules, Refusal, keep};

// Reads a day's file. Every figure of its tables goes to the front of a lent block.
pub fn read_day(file: &[u8], lent: &mut [usize]) -> Result<Day, Refusal>
    ensures { ReadingAnswered file.now lent.old lent.new result }
{
    let mut numbers = [0usize; MOST_NUMBERS];
    let walk = walk_file(file, &mut numbers);
    let counts = walk.counts;
    let count = numbers_of(counts);
    examine(walk, lent.len())?;
    copy_numbers(&numbers, count, lent);
    let head = head_of(file);
    Ok(Day { head, counts })
}

// The first of the tests that a file walked through fails, with room for so many numbers.
#[tactic(auto, unfolding(units::specs::Refusals::first_refusal))]
fn examine(walk: Walk, room: usize) -> Result<(), Refusal>
    ensures { result ≡ (file_check walk then keep (leb (numbers_in walk.counts) room) 7) }
{
    walk.check()?;
    keep(numbers_of(walk.counts) <= room, 7)
}

// Where the numbers of the head's field stand.
const FREE_FLOW: usize = HEADER + NUMBER.width;

const COMPRESSOR: usize = FREE_FLOW + GIGAJOULES.width;

fn head_of(file: &[u8]) -> Head
    ensures { result ≡ head_of file.now }
{
    Head {
        day: number_at(file, HEADER, NUMBER.width),
        free_flow: Gigajoules(number_at(file, FREE_FLOW, GIGAJOULES.width)),
        compressor: Gigajoules(number_at(file, COMPRESSOR, GIGAJOULES.width)),
    }
}

// The first of the numbers to the front of a block.
fn copy_numbers(numbers: &[usize], count: usize, lent: &mut [usize])
    requires { (count ≤ length numbers.now) × (count ≤ length lent.old) }
    ensures { lent.new ≡ sets lent.old 0 (listed count (col numbers.now)) }
{
    lent[..count].copy_from_slice(&numbers[..count]);
}
