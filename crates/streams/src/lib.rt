// What the programs share over std: a whole read of the input, a listing printed, numbers and bytes as text, and an argument's bytes.
#![tactic(auto)]

ghost use Rattle.std.specs.Prelude.{◌≡◌, ℕ, ◌<◌, ◌≤◌, length, take, IfOk, OnOk, Ok, Err, decimal, ◌/◌, ◌%◌, ◌∷◌, [], false};
ghost use Rattle.std.specs.Fmt.{digit_glyph};
ghost use Rattle.std.specs.Io.KnownBytes.{Appends, Consumes, IsAtEnd};
ghost use Rattle.units.specs.declared.refusal.Refusal.{Refusal};
ghost use Rattle.lines.specs.Line.{refused};

use std::env::{Env, FillError};
use std::io::{self, Read, Write};
use units::Refusal;

// What a buffer for a line holds, and one for a file or its listing. Arrays: the programs have no heap.
pub const BUFFER: usize = 4_096;

pub const LARGE_BUFFER: usize = 65_536;

// Reads until buf is full or the input ends, and returns how many bytes it put at the start of buf.
pub fn read_full<R: Read>(input: &mut R, buf: &mut [u8]) -> io::Result<usize>
    ensures bound { IfOk result (λ n. n ≤ length buf.new) }
    ensures bytes { IfOk result (λ n. Consumes (R.remaining input.old) (R.remaining input.new)
        (take n buf.new)) }
    ensures end { IfOk result (λ n. n < length buf.new → IsAtEnd (R.remaining input.new)) }
{
    // No `for`: a read gives as many bytes as it likes.
    let mut done = 0;
    while done < buf.len() {
        let n = input.read(&mut buf[done..])?;
        if n == 0 {
            return Ok(done);
        }
        done += n;
    }
    Ok(done)
}

// Prints a listing's text out of the block that it was laid into, or the line of its refusal.
pub fn print_listing<W: Write>(
    out: &mut W,
    listing: Result<usize, Refusal>,
    block: &[u8],
) -> io::Result<()>
    ensures text { (size : ℕ) → listing ≡ Ok size → size ≤ length block.now
        → OnOk result (Appends (W.contents out.old) (W.contents out.new) (take size block.now)) }
    ensures refusal { (refusal : Refusal) → listing ≡ Err refusal
        → OnOk result (Appends (W.contents out.old) (W.contents out.new) (refused refusal)) }
{
    match listing {
        Err(refusal) => print_refusal(out, refusal),
        Ok(size) => {
            if block.len() < size {
                return Ok(());
            }
            out.write_all(&block[..size])
        }
    }
}

// Prints the line of a refusal, which a buffer for a line always has room for.
pub fn print_refusal<W: Write>(out: &mut W, refusal: Refusal) -> io::Result<()>
    ensures { OnOk result (Appends (W.contents out.old) (W.contents out.new) (refused refusal)) }
{
    let mut line = [0u8; BUFFER];
    let size = lines::refusal_line(refusal, &mut line).unwrap_or(0);
    out.write_all(&line[..size])
}

// A number's decimal digits.
pub fn print_decimal<W: Write>(out: &mut W, n: u64) -> io::Result<()>
    ensures { OnOk result (Appends (W.contents out.old) (W.contents out.new) (decimal n)) }
{
    write!(out, "{n}")
}

// A byte's two hexadecimal digits, in lower case.
pub fn print_hex<W: Write>(out: &mut W, byte: u8) -> io::Result<()>
    ensures { OnOk result (Appends (W.contents out.old) (W.contents out.new)
        (digit_glyph false (byte / 16) ∷ digit_glyph false (byte % 16) ∷ [])) }
{
    write!(out, "{byte:02x}")
}

// Whether the program has argument i.
pub fn has_arg<E: Env>(env: &E, i: usize) -> bool {
    !matches!(env.arg(i, &mut []), Err(FillError::NotPresent))
}

// Puts argument i at the start of buf, and returns how many bytes it has, or 0 where it is missing or longer than buf.
pub fn arg<E: Env>(env: &E, i: usize, buf: &mut [u8]) -> usize
    ensures { result ≤ length buf.new }
{
    env.arg(i, buf).unwrap_or(0)
}
