// A field's row, number by number.
ghost use Rattle.std.specs.Prelude.{◌≡◌, ◌^◌, ◌≤◌, ◌<◌, length, drop, set};
ghost use Rattle.std.proofs.lemmas.List.Edits.{sets};
ghost use Rattle.bigendian.specs.Row.{decode};
ghost use Rattle.dayformat.specs.Format.{widths};

use bigendian::number_at;
use dayformat::{Tag, column_at, form_of};

// A number into a list, where the list has the place.
fn put(number: usize, numbers: &mut [usize], at: usize)
    ensures { numbers.new ≡ set numbers.old at number }
{
    if at < numbers.len() {
        numbers[at] = number;
    }
}

// The numbers of the body that begins at a byte, into a list from a place on; what lies past the list is dropped.
pub fn read_row(file: &[u8], tag: Tag, at: usize, numbers: &mut [usize], to: usize)
    requires { (at ≤ length file.now) × (to < 2 ^ 41) }
    ensures { numbers.new ≡ sets numbers.old to (decode (widths tag) (drop at file.now)) }
{
    let mut byte = at;
    for place in 0..form_of(tag).columns {
        let width = column_at(tag, place).width;
        put(number_at(file, byte, width) as usize, numbers, to + place);
        byte += width;
    }
}
