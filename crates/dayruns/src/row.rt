// A field's row read at once, with every test of it that looks at no other table.
ghost use Rattle.std.specs.Prelude.{◌≡◌, true, false, cond, not, ◌+◌, ◌^◌, ◌≤◌, ◌<◌, length};
ghost use Rattle.columns.specs.Column.{col};
ghost use Rattle.dayformat.specs.Format.{form};
ghost use Rattle.dayrows.specs.Test.{starved};
ghost use Rattle.dayruns.specs.Private.{Ready, RowRead};

use crate::body::{read_body, read_entry};
use crate::field::Field;
use crate::key::is_next;
use crate::kind::Cursor;
use dayformat::{HEADER, Tag, form_of, mdqs_of};
use dayrows::{breaks, is_idle};

fn both(x: bool, y: bool) -> bool
    ensures { result ≡ cond x y false }
{
    if x {
        return y;
    }
    false
}

// Whether a field is whole, and its row, which stands at a place, has room. No `Field` is asked for what is asked of bytes alone.
fn is_ready(file: &[u8], tag: Tag, at: usize, to: usize, room: usize) -> bool
    requires { to < 2 ^ 43 }
    ensures { result ≡ true → Ready file.now tag at to room }
{
    if breaks(file, tag, at).is_err() {
        return false;
    }
    to + form_of(tag).columns <= room
}

// Whether the row that begins at a place has no schedule without its MDQ.
fn is_fed(numbers: &[usize], tag: Tag, at: usize) -> bool
    requires { at + (form tag).columns ≤ length numbers.now }
    ensures { result ≡ not (starved (col numbers.now) tag at) }
{
    let mdqs = mdqs_of(tag);
    for pair in mdqs {
        if is_idle(numbers[at + pair.mdq], numbers[at + pair.schedule]) {
            return false;
        }
    }
    true
}

// The row of a whole field with room goes to its place; whether it is then seen to pass every test but that of its names.
pub fn see_row(field: &Field, numbers: &mut [usize]) -> bool
    ensures { RowRead field.now.counts field.now.file.now field.now.tag field.now.at field.now.row
        numbers.old numbers.new result }
{
    if !is_ready(field.file, field.tag, field.at, field.to, numbers.len()) {
        return false;
    }
    let from = Cursor {
        byte: field.at + HEADER,
        to: field.to,
        kept: true,
    };
    let kept = read_body(field.file, field.tag, from, numbers);
    let next = is_next(field.counts, numbers, field.tag, field.row, field.to);
    both(kept, both(next, is_fed(numbers, field.tag, field.to)))
}

// The same of an entry, of which a file has the most: with the tag named, its sizes and places are constants. Read by the routine of
// all tags, as was tried, a full file takes 1.3 times as long.
pub fn see_entry_row(field: &Field, numbers: &mut [usize]) -> bool
    requires { field.now.tag ≡ Tag.Entry }
    ensures { RowRead field.now.counts field.now.file.now Tag.Entry field.now.at field.now.row
        numbers.old numbers.new result }
{
    if !is_ready(field.file, Tag::Entry, field.at, field.to, numbers.len()) {
        return false;
    }
    let from = Cursor {
        byte: field.at + HEADER,
        to: field.to,
        kept: true,
    };
    let read = read_entry(field.file, from, numbers);
    both(
        read.kept,
        is_next(field.counts, numbers, Tag::Entry, field.row, field.to),
    )
}
