// A field seen to be sound at a glance: its row is read once, by its tag's own reader. What is not seen so is taken in full.
ghost use Rattle.std.specs.Prelude.{◌≡◌, true};
ghost use Rattle.dayrows.specs.declared.Source.TheVariants.{File};
ghost use Rattle.dayruns.specs.Private.{Glanced};

use crate::caps::is_under;
use crate::field::Field;
use crate::names::{Near, near_entry, row_keyed_from};
use crate::row::{see_entry_row, see_row};
use dayformat::{ENTRY_BYTE, Tag, count_of, form_of, names_of};
use dayrows::Source;

// Whether a field is seen to be sound, and the rows that its names were found in. The numbers stay beside a field: it is written to them.
#[derive(Clone, Copy)]
pub struct Glance {
    pub sound: bool,
    pub near: Near,
}

// An entry's, apart from that of all tags: tried for entries, that one is 1.3 times slower over a full file, since nothing is a constant.
fn glance_at_entry(field: &Field, numbers: &mut [usize], near: Near) -> Glance
    requires { field.now.tag ≡ Tag.Entry }
    ensures { Glanced Source.File field.now.counts field.now.file.now Tag.Entry field.now.at field.now.row
        numbers.old numbers.new result.sound }
{
    let counts = field.counts;
    if !see_entry_row(field, numbers) {
        return Glance { sound: false, near };
    }
    let found = near_entry(counts, numbers, field.to, near);
    if counts.points as usize <= found.first {
        return Glance { sound: false, near };
    }
    Glance {
        sound: found.second < counts.shippers as usize,
        near: found,
    }
}

// Any other row, whose names are looked for one after another; the first may find what caps its numbers.
fn glance_at_row(field: &Field, numbers: &mut [usize], near: Near) -> Glance
    ensures { Glanced Source.File field.now.counts field.now.file.now field.now.tag field.now.at field.now.row
        numbers.old numbers.new result.sound }
{
    let counts = field.counts;
    let to = field.to;
    if !see_row(field, numbers) {
        return Glance { sound: false, near };
    }
    let names = names_of(field.tag);
    let one = names[0];
    let one_tag = one.tag;
    let first = row_keyed_from(counts, numbers, one_tag, to + one.place, near.first);
    let other = names[1];
    let other_tag = other.tag;
    let second = row_keyed_from(counts, numbers, other_tag, to + other.place, near.second);
    if count_of(counts, one_tag) as usize <= first {
        return Glance { sound: false, near };
    }
    if count_of(counts, other_tag) as usize <= second {
        return Glance { sound: false, near };
    }
    Glance {
        sound: is_under(counts, numbers, field.tag, one_tag, to, first),
        near: Near { first, second },
    }
}

// Whether rows stand in a file.
fn is_file(source: Source) -> bool
    ensures { result ≡ true → source ≡ File }
{
    match source {
        Source::Side(side) => false,
        Source::File => true,
    }
}

// Entries, of which a file has the most, have a glance of their own.
pub fn glance_at(source: Source, field: &Field, numbers: &mut [usize], near: Near) -> Glance
    ensures { Glanced source field.now.counts field.now.file.now field.now.tag field.now.at field.now.row
        numbers.old numbers.new result.sound }
{
    if !is_file(source) {
        return Glance { sound: false, near };
    }
    if form_of(field.tag).byte == ENTRY_BYTE {
        return glance_at_entry(field, numbers, near);
    }
    glance_at_row(field, numbers, near)
}
