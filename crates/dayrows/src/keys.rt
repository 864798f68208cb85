// 5: a key that does not rise, or names something not listed.
ghost use Rattle.std.specs.Prelude.{◌≡◌, ◌^◌, ◌≤◌, ◌<◌};
ghost use Rattle.columns.specs.Column.{col};
ghost use Rattle.dayrows.specs.Test.{difference, rises, lists, named};

use crate::bounds::number_of;
use crate::row::Row;
use crate::tables::Tables;
use dayformat::{Tag, count_of, form_of, names_of, row_place};

// The first of so many numbers in which those from one place on differ from those from another.
pub fn first_difference(numbers: &[usize], many: usize, one: usize, other: usize) -> usize
    requires { (many ≤ 68) × (one < 2 ^ 41) × (other < 2 ^ 41) }
    ensures { (result ≡ difference (col numbers.now) many one other) × (result ≤ many) }
{
    (0..many)
        .find(|place| number_of(numbers, one + *place) != number_of(numbers, other + *place))
        .unwrap_or(many)
}

// Whether a row's key is greater than that of the row before.
pub fn rises(tables: Tables, tag: Tag, row: u32) -> bool
    ensures { result ≡ rises tables.entry.counts (col tables.entry.numbers.now) tag row }
{
    if row == 0 {
        return true;
    }
    let Tables { counts, numbers } = tables;
    let key = form_of(tag).key;
    let before = row_place(counts, tag, row - 1);
    let here = row_place(counts, tag, row);
    let place = first_difference(numbers, key, before, here);
    place < key && number_of(numbers, before + place) < number_of(numbers, here + place)
}

// Whether some row of the tag has the key that stands at a place.
pub fn lists(tables: Tables, tag: Tag, at: usize) -> bool
    requires { at < 2 ^ 41 }
    ensures { result ≡ lists tables.entry.counts (col tables.entry.numbers.now) tag at }
{
    let Tables { counts, numbers } = tables;
    let key = form_of(tag).key;
    let rows = count_of(counts, tag);
    (0..rows).any(|row| key <= first_difference(numbers, key, row_place(counts, tag, row), at))
}

// Whether a row names only shippers and points that are listed.
pub fn is_named(row: Row) -> bool
    ensures { result ≡ named row.entry.tables.counts (col row.entry.tables.numbers.now) row.entry.tag row.entry.at }
{
    names_of(row.tag)
        .iter()
        .all(|name| lists(row.tables, name.tag, row.at + name.place))
}
