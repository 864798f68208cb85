// 3: a number above the one that caps it.
ghost use Rattle.std.specs.Prelude.{◌≡◌, ◌^◌, ◌≤◌, ◌<◌};
ghost use Rattle.columns.specs.Column.{col};
ghost use Rattle.dayrows.specs.Test.{all_under, caps, capped};

use crate::bounds::number_of;
use crate::keys::{first_difference, lists};
use crate::row::Row;
use crate::tables::Tables;
use dayformat::{cap_of, count_of, form_of, names_of, row_place};

// Whether none of so many numbers from one place on is above that from another on.
fn all_under(numbers: &[usize], many: usize, one: usize, other: usize) -> bool
    requires { (many ≤ 68) × (one < 2 ^ 41) × (other < 2 ^ 41) }
    ensures { result ≡ all_under (col numbers.now) many one other }
{
    (0..many).all(|place| number_of(numbers, one + place) <= number_of(numbers, other + place))
}

// Whether another row has the first name of a row, and caps its numbers.
fn caps(row: Row, other: u32) -> bool
    ensures { result ≡ caps row.entry.tables.counts (col row.entry.tables.numbers.now) row.entry.tag row.entry.at other }
{
    let Tables { counts, numbers } = row.tables;
    let name = names_of(row.tag)[0];
    let key = form_of(name.tag).key;
    let start = row_place(counts, name.tag, other);
    if first_difference(numbers, key, start, row.at + name.place) < key {
        return false;
    }
    let cap = cap_of(row.tag);
    all_under(numbers, cap.many, row.at + cap.place, start + cap.under)
}

// Whether some row that a row names caps its numbers, where there is any.
pub fn is_capped(row: Row) -> bool
    ensures { result ≡ capped row.entry.tables.counts (col row.entry.tables.numbers.now) row.entry.tag row.entry.at }
{
    let name = names_of(row.tag)[0];
    if !lists(row.tables, name.tag, row.at + name.place) {
        return true;
    }
    (0..count_of(row.tables.counts, name.tag)).any(|other| caps(row, other))
}
