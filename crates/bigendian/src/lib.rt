// Big-endian numbers of up to 32 bits in a file. Every input is taken: a width above four counts as four.
#![tactic(auto)]

ghost use Rattle.std.specs.Prelude.{◌≡◌, min, length, take, drop};
ghost use Rattle.std.proofs.lemmas.List.Edits.{sets};
ghost use Rattle.bigendian.specs.Number.{value, bytes, widest};

use columns::put_byte;

// A u32 has so many bytes.
const WIDEST: usize = 4;

// The number that four bytes spell. Read lowest first and swapped, they are one load and one swap; by `from_be_bytes` four loads.
fn four_of(part: &[u8]) -> u32
    requires { length part.now ≡ widest }
    ensures { result ≡ value part.now }
{
    u32::from_le_bytes([part[0], part[1], part[2], part[3]]).swap_bytes()
}

// The number that the bytes from `at` on spell. Those past the end are not there: fewer bytes spell it then, and none spell zero.
pub fn number_at(file: &[u8], at: usize, width: usize) -> u32
    ensures { result ≡ value (take (min width widest) (drop at file.now)) }
{
    if file.len() <= at {
        return 0;
    }
    let count = width.min(WIDEST).min(file.len() - at);
    let part = &file[at..at + count];
    if count == WIDEST {
        return four_of(part);
    }
    let mut number: u32 = 0;
    for byte in part {
        number = number * 256 + *byte as u32;
    }
    number
}

// Lays a number's lowest bytes from `at` on, the last of them first; what lies past the block is dropped.
pub fn put_number(number: u32, width: usize, block: &mut [u8], at: usize)
    ensures { block.new ≡ sets block.old at (bytes (min width widest) number) }
{
    let mut rest = number;
    for place in (0..width.min(WIDEST)).rev() {
        put_byte((rest % 256) as u8, block, at, place);
        rest /= 256;
    }
}
