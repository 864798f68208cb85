// A row of a day's table: its numbers, and its tests.
ghost use Rattle.std.specs.Prelude.{◌≡◌};
ghost use Rattle.columns.specs.Column.{col};
ghost use Rattle.dayvalues.specs.Row.{number_at, beyond, beyond_row, row_beginning, row_check};

use dayformat::{Tag, column_at, count_of, numbers_of, row_place};
use dayrows::{Tables, is_bounded, is_within, number_of, row_of};
use units::{Refusal, clear, keep};

// The number at a place of a row, 0 past the list. A row is untested here, so it stays a number beside its tables.
pub fn number_at(tables: Tables, tag: Tag, row: u32, place: u32) -> usize
    ensures { result ≡ number_at tables.entry.counts (col tables.entry.numbers.now) tag row place }
{
    let at = row_place(tables.counts, tag, row) + place as usize;
    number_of(tables.numbers, at)
}

// Whether it is beyond its bounds.
pub fn is_beyond(tables: Tables, tag: Tag, row: u32, place: u32) -> bool
    ensures { result ≡ beyond tables.entry.counts (col tables.entry.numbers.now) tag row place }
{
    let number = number_at(tables, tag, row, place);
    !is_within(column_at(tag, place as usize), number)
}

// The row, where one of its numbers is beyond its bounds; else the number of rows.
fn beyond_row(tables: Tables, tag: Tag, row: u32) -> u32
    ensures { result ≡ beyond_row tables.entry.counts (col tables.entry.numbers.now) tag row }
{
    if is_bounded(row_of(tables, tag, row)) {
        return count_of(tables.counts, tag);
    }
    row
}

// The first row of a table that begins with a number, or the number of rows.
pub fn row_beginning(tables: Tables, tag: Tag, number: u32) -> u32
    ensures { result ≡ row_beginning tables.entry.counts (col tables.entry.numbers.now) tag number }
{
    let rows = count_of(tables.counts, tag);
    (0..rows)
        .find(|row| number_at(tables, tag, *row, 0) == number as usize)
        .unwrap_or(rows)
}

// The first test that a row fails.
#[tactic(auto, unfolding(crate::specs::Row::row_check, units::specs::Refusals::first_refusal))]
pub fn check_row(tables: Tables, tag: Tag, row: u32) -> Result<(), Refusal>
    ensures { result ≡ row_check tables.entry.counts tables.entry.numbers.now tag row }
{
    let Tables { counts, numbers } = tables;
    let rows = count_of(counts, tag);
    let beyond = beyond_row(tables, tag, row);
    keep(numbers.len() == numbers_of(counts), 9)?;
    counts.check()?;
    keep(row < rows, 3)?;
    clear(rows as usize, beyond as usize, 3)
}
