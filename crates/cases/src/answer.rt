// The line of an answer: the routine, 01's number and place, the figures, and each lent list or block.
ghost use Rattle.std.specs.Prelude.{◌≡◌, ℕ, ◌∷◌, ◌++◌, [], map, OnOk, decimal};
ghost use Rattle.std.specs.Io.KnownBytes.{Appends};
ghost use Rattle.cases.specs.Line.{spaced, answered, whole, hexadecimal};

use std::io::{self, Write};
use units::Refusal;

// A number that can be printed.
pub trait Figure: Copy {
    ghost value: { Self → ℕ };

    fn figure(self) -> u64
        ensures { result ≡ value self };
}

impl Figure for u32 {
    ghost value = { λ n. n };

    fn figure(self) -> u64 {
        u64::from(self)
    }
}

impl Figure for u64 {
    ghost value = { λ n. n };

    fn figure(self) -> u64 {
        self
    }
}

impl Figure for usize {
    ghost value = { λ n. n };

    fn figure(self) -> u64 {
        self as u64
    }
}

// Figures one after another, a space before each.
pub fn put_figures<T: Figure, W: Write>(out: &mut W, figures: &[T]) -> io::Result<()>
    ensures { OnOk result (Appends (W.contents out.old) (W.contents out.new)
        (spaced (map T.value figures.now))) }
{
    for figure in figures {
        put_figure(out, figure.figure())?;
    }
    Ok(())
}

fn put_figure<W: Write>(out: &mut W, figure: u64) -> io::Result<()>
    ensures { OnOk result (Appends (W.contents out.old) (W.contents out.new) (32 ∷ decimal figure)) }
{
    out.write_all(b" ")?;
    streams::print_decimal(out, figure)
}

// The routine's name, 01's number and place, and the figures where it is accepted.
pub fn put_answer<W: Write, const N: usize>(
    out: &mut W,
    routine: &[u8],
    answer: Result<[u64; N], Refusal>,
) -> io::Result<()>
    ensures { OnOk result (Appends (W.contents out.old) (W.contents out.new)
        (routine.now ++ answered answer.entry)) }
{
    out.write_all(routine)?;
    match answer {
        Err(refusal) => put_found(out, refusal),
        Ok(figures) => {
            put_figures(out, &[0u64, 0])?;
            put_figures(out, &figures)
        }
    }
}

// The same with zeros for the figures of a refusal.
pub fn put_verdict<W: Write, const N: usize>(
    out: &mut W,
    routine: &[u8],
    answer: Result<[u64; N], Refusal>,
) -> io::Result<()>
    ensures { OnOk result (Appends (W.contents out.old) (W.contents out.new)
        (routine.now ++ whole N answer.entry)) }
{
    put_answer(out, routine, answer)?;
    if answer.is_err() {
        put_figures(out, &[0u64; N])?;
    }
    Ok(())
}

fn put_found<W: Write>(out: &mut W, refusal: Refusal) -> io::Result<()>
    ensures { OnOk result (Appends (W.contents out.old) (W.contents out.new)
        (spaced (refusal.number ∷ refusal.place ∷ []))) }
{
    put_figures(out, &[refusal.number as u64, refusal.place as u64])
}

// A lent list as it is after the call.
pub fn put_list<T: Figure, W: Write>(out: &mut W, lent: &[T]) -> io::Result<()>
    ensures { OnOk result (Appends (W.contents out.old) (W.contents out.new)
        (32 ∷ 58 ∷ spaced (map T.value lent.now))) }
{
    out.write_all(b" :")?;
    put_figures(out, lent)
}

// A lent block, in hexadecimal.
pub fn put_block<W: Write>(out: &mut W, lent: &[u8]) -> io::Result<()>
    ensures { OnOk result (Appends (W.contents out.old) (W.contents out.new)
        (32 ∷ 58 ∷ hexadecimal lent.now)) }
{
    out.write_all(b" :")?;
    put_bytes(out, lent)
}

fn put_bytes<W: Write>(out: &mut W, bytes: &[u8]) -> io::Result<()>
    ensures { OnOk result (Appends (W.contents out.old) (W.contents out.new) (hexadecimal bytes.now)) }
{
    for byte in bytes {
        streams::print_hex(out, *byte)?;
    }
    Ok(())
}
