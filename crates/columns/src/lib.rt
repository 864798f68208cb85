// Columns over the rows of a table, and lists that are lent: mathematics, in specs/ and proofs/, and the routine that lays a byte.
#![tactic(auto)]

ghost use Rattle.std.specs.Prelude.{◌≡◌, ◌+◌, set};

// Lays a byte so many places past `at`. A sum that does not fit is past every block too.
pub fn put_byte(byte: u8, block: &mut [u8], at: usize, place: usize)
    ensures { block.new ≡ set block.old (at + place) byte }
{
    let index = at.saturating_add(place);
    if index < block.len() {
        block[index] = byte;
    }
}
