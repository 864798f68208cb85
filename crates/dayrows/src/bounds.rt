// 3: a number beyond its bound.
ghost use Rattle.std.specs.Prelude.{◌≡◌};
ghost use Rattle.columns.specs.Column.{col};
ghost use Rattle.dayrows.specs.Test.{in_bounds, bounded};

use crate::row::Row;
use dayformat::{Column, column_at, form_of};

// The number at a place, 0 past the list.
pub fn number_of(numbers: &[usize], at: usize) -> usize
    ensures { result ≡ col numbers.now at }
{
    numbers.get(at).copied().unwrap_or(0)
}

// Whether a number is within its bounds.
pub fn is_within(column: Column, number: usize) -> bool
    ensures { result ≡ in_bounds column number }
{
    column.low <= number && number <= column.high
}

// Whether every number of a row is within its bounds.
pub fn is_bounded(row: Row) -> bool
    ensures { result ≡ bounded (col row.entry.tables.numbers.now) row.entry.tag row.entry.at }
{
    (0..form_of(row.tag).columns).all(|place| is_within(
        column_at(row.tag, place),
        number_of(row.tables.numbers, row.at + place),
    ))
}
