// Whether a field stands whole at a byte.
ghost use Rattle.std.specs.Prelude.{◌≡◌};
ghost use Rattle.dayrows.specs.Whole.{broken};

use crate::fault::Fault;
use bigendian::number_at;
use dayformat::{HEADER, LENGTH_WIDTH, Tag, form_of};

// The first of 1 (header), 2 and 1 (body) that a field is refused by.
pub fn breaks(file: &[u8], tag: Tag, at: usize) -> Result<(), Fault>
    ensures { result ≡ broken file.now tag at }
{
    if file.len() < at {
        return Err(Fault::Cut);
    }
    let left = file.len() - at;
    if left < HEADER {
        return Err(Fault::Cut);
    }
    let form = form_of(tag);
    if file[at] != form.byte {
        return Err(Fault::Foreign);
    }
    if number_at(file, at + 1, LENGTH_WIDTH) as usize != form.size {
        return Err(Fault::Foreign);
    }
    if left < HEADER + form.size {
        return Err(Fault::Cut);
    }
    Ok(())
}
