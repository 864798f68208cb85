// A file walked through field by field.
ghost use Rattle.std.specs.Prelude.{◌≡◌, replicate};
ghost use Rattle.dayfile.specs.File.{headed};
ghost use Rattle.dayformat.specs.Layout.{most_numbers};
ghost use Rattle.dayfile.specs.Private.{Tabled, Walked};

use dayfields::take_field;
use dayformat::{HEAD_FIELD, NO_ROWS, TABLES, Tag, tag_at};
use dayrows::Source;
use dayruns::{Walk, run_fields};

// The head's field.
fn begin(file: &[u8]) -> Walk
    ensures { result ≡ headed file.now }
{
    // No heap: the head's three numbers.
    let mut row = [0usize; 3];
    let found = take_field(Source::File, NO_ROWS, file, Tag::Head, 0, 0, &mut row);
    if found.is_err() {
        return Walk {
            found,
            place: 0,
            counts: NO_ROWS,
        };
    }
    Walk {
        found,
        place: HEAD_FIELD,
        counts: NO_ROWS,
    }
}

// The fields of a tag after those before. Their rows go into the numbers.
fn walk_table(walk: Walk, file: &[u8], tag: Tag, numbers: &mut [usize]) -> Walk
    ensures { Tabled walk file.now tag numbers.old numbers.new result }
{
    let counts = walk.counts;
    if walk.found.is_err() {
        return walk;
    }
    let run = run_fields(Source::File, counts, file, tag, walk.place, numbers);
    Walk {
        found: run.found,
        place: run.place,
        counts: counts.with(tag, run.rows),
    }
}

// The whole file, with the numbers of its rows into a list of zeros.
pub fn walk_file(file: &[u8], numbers: &mut [usize]) -> Walk
    requires { numbers.old ≡ replicate most_numbers 0 }
    ensures { Walked file.now numbers.new result }
{
    let mut walk = begin(file);
    for place in 0..TABLES {
        walk = walk_table(walk, file, tag_at(place), numbers);
    }
    walk.end(file)
}
