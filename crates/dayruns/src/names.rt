// Where the names of a row are found. Keys rise, so they are looked for from where those of the row before stand.
ghost use Rattle.std.specs.Prelude.{◌≡◌, true, ◌+◌, ◌*◌, ◌≤◌, ◌<◌, length};
ghost use Rattle.columns.specs.Column.{col};
ghost use Rattle.dayformat.specs.Layout.{count, table_start};
ghost use Rattle.dayrows.specs.Test.{keyed, lists};
ghost use Rattle.dayruns.specs.Private.{KeysInside};

use dayformat::{Counts, POINT_COLUMNS, SHIPPER_COLUMNS, Tag, count_of, form_of, row_place};

// The rows in which a row's first and second name were found: an entry's first is its point, its second its shipper.
#[derive(Clone, Copy)]
pub struct Near {
    pub first: usize,
    pub second: usize,
}

// Where nothing is known of them.
pub const NOWHERE: Near = Near {
    first: 0,
    second: 0,
};

// The first shipper's row, from one on, that has a name, or how many rows there are.
fn shipper_from(numbers: &[usize], rows: usize, from: usize, name: usize) -> usize
    requires { rows * 6 ≤ length numbers.now }
    ensures { result < rows → col numbers.now (result * 6) ≡ name }
{
    for row in from..rows {
        if numbers[row * SHIPPER_COLUMNS] == name {
            return row;
        }
    }
    rows
}

// The first point's row, from one on, that has a side and a name, numbers both, or how many rows there are.
fn point_from(
    numbers: &[usize],
    start: usize,
    rows: usize,
    from: usize,
    side: usize,
    name: usize,
) -> usize
    requires { start + rows * 3 ≤ length numbers.now }
    ensures { result < rows →
        (col numbers.now (start + result * 3) ≡ side)
        × (col numbers.now (start + result * 3 + 1) ≡ name) }
{
    for row in from..rows {
        let at = start + row * POINT_COLUMNS;
        if numbers[at + 1] == name {
            if numbers[at] == side {
                return row;
            }
        }
    }
    rows
}

// The shippers of another point begin anew.
fn first_shipper(near: Near, point: usize) -> usize {
    if point == near.first {
        return near.second;
    }
    0
}

// The rows of the point and of the shipper that the entry at a place names, where there are any.
pub fn near_entry(counts: Counts, numbers: &[usize], at: usize, near: Near) -> Near
    requires { (table_start counts Tag.Entry ≤ at) × (at + 4 ≤ length numbers.now) }
    ensures { (result.first < counts.points → lists counts (col numbers.now) Tag.Point at ≡ true)
        × (result.second < counts.shippers → lists counts (col numbers.now) Tag.Shipper (at + 2) ≡ true) }
{
    let start = row_place(counts, Tag::Point, 0);
    let points = counts.points as usize;
    let point = point_from(
        numbers,
        start,
        points,
        near.first,
        numbers[at],
        numbers[at + 1],
    );
    let from = first_shipper(near, point);
    let shippers = counts.shippers as usize;
    let shipper = shipper_from(numbers, shippers, from, numbers[at + 2]);
    Near {
        first: point,
        second: shipper,
    }
}

// The first row of a table, from one on, that has the key at a place, or how many rows there are.
pub fn row_keyed_from(counts: Counts, numbers: &[usize], tag: Tag, at: usize, from: usize) -> usize
    requires { KeysInside counts tag at numbers.now }
    ensures { result < count counts tag → keyed counts (col numbers.now) tag at result ≡ true }
{
    let form = form_of(tag);
    let start = row_place(counts, tag, 0);
    let rows = count_of(counts, tag) as usize;
    let key = &numbers[at..at + form.key];
    for row in from..rows {
        let here = start + row * form.columns;
        if &numbers[here..here + form.key] == key {
            return row;
        }
    }
    rows
}
