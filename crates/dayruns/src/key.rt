// Whether a row follows the one before.
ghost use Rattle.std.specs.Prelude.{◌≡◌, false, cond, ◌+◌, ◌≤◌, ltb, length};
ghost use Rattle.columns.specs.Column.{col};
ghost use Rattle.dayformat.specs.Format.{form};
ghost use Rattle.dayformat.specs.Layout.{row_start};
ghost use Rattle.dayrows.specs.Test.{less, rises};

use dayformat::{Counts, Tag, form_of};

// Whether the first of so many numbers in which those from one place on differ from those from another is the less.
// Tried as two slices under `<`: proved, and slower, by some ten instructions for each row of a full file.
fn is_less(numbers: &[usize], key: usize, one: usize, other: usize) -> bool
    requires { (one + key ≤ length numbers.now) × (other + key ≤ length numbers.now) }
    ensures { result ≡ less (col numbers.now) key one other }
{
    for place in 0..key {
        let here = numbers[one + place];
        let there = numbers[other + place];
        if here != there {
            return here < there;
        }
    }
    false
}

// Whether there may be such a row, which stands at a place, and its key is greater than that of the row before. The numbers are being
// written, so that the `Tables` of a day would be made anew for each row.
pub fn is_next(counts: Counts, numbers: &[usize], tag: Tag, row: u32, here: usize) -> bool
    requires { (here ≡ row_start counts tag row) × (here + (form tag).columns ≤ length numbers.now) }
    ensures { result ≡ cond (ltb row (form tag).most) (rises counts (col numbers.now) tag row) false }
{
    let form = form_of(tag);
    if form.most <= row {
        return false;
    }
    if row == 0 {
        return true;
    }
    is_less(numbers, form.key, here - form.columns, here)
}
