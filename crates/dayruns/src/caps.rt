// Whether a row's numbers keep under those of the row that its first name was found in.
ghost use Rattle.std.specs.Prelude.{◌≡◌, true, ◌+◌, ◌≤◌, length};
ghost use Rattle.columns.specs.Column.{col};
ghost use Rattle.dayrows.specs.Test.{all_under};
ghost use Rattle.dayruns.specs.Private.{CapsInside, under_cap};

use dayformat::{Counts, Tag, cap_of, form_of, row_place};

// Whether none of so many numbers from one place on is above that from another on. All are looked at, and so several at once: a loop
// that stops at the first, as `all` does, is not made of vectors (docs/SPEED.md).
fn are_under(numbers: &[usize], many: usize, one: usize, other: usize) -> bool
    requires { (one + many ≤ length numbers.now) × (other + many ≤ length numbers.now) }
    ensures { result ≡ true → all_under (col numbers.now) many one other ≡ true }
{
    let mut kept = true;
    for place in 0..many {
        if numbers[other + place] < numbers[one + place] {
            kept = false;
        }
    }
    kept
}

// The same of a row at a place and the row of another table that caps it, where any does. Counts and numbers apart, as in key.rt.
pub fn is_under(
    counts: Counts,
    numbers: &[usize],
    tag: Tag,
    named: Tag,
    at: usize,
    row: usize,
) -> bool
    requires { CapsInside counts tag named at row numbers.now }
    ensures { result ≡ true → under_cap counts (col numbers.now) tag named at row ≡ true }
{
    let cap = cap_of(tag);
    if cap.many == 0 {
        return true;
    }
    let start = row_place(counts, named, 0) + row * form_of(named).columns;
    are_under(numbers, cap.many, at + cap.place, start + cap.under)
}
