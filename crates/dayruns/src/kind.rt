// So many numbers of one kind, read and tested at once.
ghost use Rattle.std.specs.Prelude.{◌+◌, ◌*◌, ◌≤◌, length};
ghost use Rattle.bigendian.specs.Number.{widest};
ghost use Rattle.dayruns.specs.Private.{KindRead};

use bigendian::number_at;
use dayformat::Column;

// How far a body is read: the next number's byte and its place among the numbers, and whether those before keep their bounds.
#[derive(Clone, Copy)]
pub struct Cursor {
    pub byte: usize,
    pub to: usize,
    pub kept: bool,
}

// Lays the next numbers into the list.
pub fn read_kind(
    file: &[u8],
    from: Cursor,
    many: usize,
    column: Column,
    numbers: &mut [usize],
) -> Cursor
    requires { (column.width ≤ widest)
        × (from.byte + many * column.width ≤ length file.now)
        × (from.to + many ≤ length numbers.old) }
    ensures { KindRead file.now from many column numbers.old numbers.new result }
{
    let width = column.width;
    let mut kept = from.kept;
    for place in 0..many {
        let byte = from.byte + place * width;
        let number = number_at(&file[byte..byte + width], 0, width) as usize;
        numbers[from.to + place] = number;
        if number < column.low {
            kept = false;
        }
        if column.high < number {
            kept = false;
        }
    }
    Cursor {
        byte: from.byte + many * width,
        to: from.to + many,
        kept,
    }
}
