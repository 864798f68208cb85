// The fields of one tag, one after another.
ghost use Rattle.std.specs.Prelude.{◌≡◌};
ghost use Rattle.dayfields.specs.Field.{Taken};
ghost use Rattle.dayruns.specs.Run.{begun, Ran};

use crate::field::Field;
use crate::glance::glance_at;
use crate::names::{NOWHERE, Near};
use dayfields::take_field;
use dayformat::{Counts, HEADER, Tag, form_of, row_place};
use dayrows::{Fault, Source};

// How many sound fields there are, where they end, and what is found there. All three are told on a fault too.
#[derive(Clone, Copy)]
pub struct Run {
    pub rows: u32,
    pub place: usize,
    pub found: Result<(), Fault>,
}

// A field taken: what is found of it, and the rows that its names were found in.
#[derive(Clone, Copy)]
struct Step {
    found: Result<(), Fault>,
    near: Near,
}

// Whether the next byte is the tag's.
fn begins(file: &[u8], tag: Tag, at: usize) -> bool
    ensures { result ≡ begun file.now tag at }
{
    if at < file.len() {
        return file[at] == form_of(tag).byte;
    }
    false
}

// The field at a byte, at a glance where it is seen to be sound, with its names looked for from some rows on.
fn take_near(source: Source, field: &Field, numbers: &mut [usize], near: Near) -> Step
    ensures { Taken source field.now.counts field.now.file.now field.now.tag field.now.at field.now.row
        numbers.old numbers.new result.found }
{
    let seen = glance_at(source, field, numbers, near);
    if seen.sound {
        return Step {
            found: Ok(()),
            near: seen.near,
        };
    }
    let found = take_field(
        source,
        field.counts,
        field.file,
        field.tag,
        field.at,
        field.row,
        numbers,
    );
    Step { found, near }
}

// The run of a tag's fields from a byte on. Their rows go into the numbers.
pub fn run_fields(
    source: Source,
    counts: Counts,
    file: &[u8],
    tag: Tag,
    at: usize,
    numbers: &mut [usize],
) -> Run
    ensures { Ran (record { source = source; counts = counts; file = file.now; at = at; tag = tag })
        numbers.old numbers.new result }
{
    let form = form_of(tag);
    let mut to = row_place(counts, tag, 0);
    let mut near = NOWHERE;
    let mut rows = 0;
    let mut place = at;
    // No `for`: the bytes say how many fields there are.
    while begins(file, tag, place) {
        let field = Field {
            counts,
            file,
            tag,
            at: place,
            row: rows,
            to,
        };
        let step = take_near(source, &field, numbers, near);
        let found = step.found;
        if found.is_err() {
            return Run { rows, place, found };
        }
        near = step.near;
        rows += 1;
        place += HEADER + form.size;
        to += form.columns;
    }
    let found = Ok(());
    Run { rows, place, found }
}
