// Numbers and words as bytes, laid into a lent block. Every input is taken: what lies past the block is dropped.
#![tactic(auto)]

ghost use Rattle.std.specs.Prelude.{◌≡◌, length};
ghost use Rattle.text.specs.Text.{last_digit, decimal, Laid};

use columns::put_byte;

// How many bytes spell a number: zero has one too.
pub fn decimal_length(number: u64) -> usize
    ensures { result ≡ length (decimal number) }
{
    number.max(1).ilog10() as usize + 1
}

// The byte of a number's last digit.
fn last_digit(number: u64) -> u8
    ensures { result ≡ last_digit number }
{
    b'0' + (number % 10) as u8
}

// Lays a number's digits from `at` on, the last of them first, and returns how many there are.
pub fn put_decimal(number: u64, text: &mut [u8], at: usize) -> usize
    ensures { Laid (decimal number) text.old at result text.new }
{
    let length = decimal_length(number);
    // Past the block's end there is nothing to lay: so a text is counted.
    if text.len() <= at {
        return length;
    }
    let mut rest = number;
    for place in (0..length).rev() {
        put_byte(last_digit(rest), text, at, place);
        rest /= 10;
    }
    length
}

// Lays a word from `at` on, and returns how many bytes it has.
pub fn put_bytes(bytes: &[u8], text: &mut [u8], at: usize) -> usize
    ensures { Laid bytes.now text.old at result text.new }
{
    if at < text.len() {
        let room = text.len() - at;
        let count = bytes.len().min(room);
        text[at..at + count].copy_from_slice(&bytes[..count]);
    }
    bytes.len()
}
