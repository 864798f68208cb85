// Cases of the second program: how one is read, how the line of its answer is printed, and the run over all that the input has.
#![tactic(auto)]

mod answer;
mod case;
mod day;

ghost use Rattle.std.specs.Prelude.{◌≤◌, ⊤, length, IfOk, OnOk, MatchOption};
ghost use Rattle.cases.specs.Run.{ReadWhole};
ghost use Rattle.cases.specs.Private.{TakesWord, TakesLast};

pub use answer::{Figure, put_answer, put_block, put_figures, put_list, put_verdict};
pub use case::{bytes, of_halves, past, past_bytes, wide, word, word_within};
pub use day::{day_of, figures_of};
use std::io::{self, Read, Write};

// A program's routines.
pub trait Answers {
    // Prints the line of a case's answer, but for its end.
    fn answer<W: Write>(out: &mut W, case: &[u8]) -> io::Result<()>;
}

// Answers each case on a line of its own. Each program's `main` lends it a block as long as its cases are. A proved loop has to end,
// and nothing says that the input does: it takes at most so many turns as no run uses up.
pub fn answer_cases<A: Answers, R: Read, W: Write>(
    input: &mut R,
    out: &mut W,
    lent: &mut [u8],
) -> io::Result<()>
    ensures { OnOk result (ReadWhole (R.remaining input.old) (R.remaining input.new)) }
{
    for _ in 0..u64::MAX {
        let Some(size) = read_case(input, lent)? else {
            return Ok(());
        };
        A::answer(out, &lent[..size])?;
        out.write_all(b"\n")?;
    }
    Ok(())
}

// Reads the next case, where there is one, to the front of the lent block: how many words it has, then the words, each of four bytes.
// Words that the input ends before are zero.
fn read_case<R: Read>(input: &mut R, lent: &mut [u8]) -> io::Result<Option<usize>>
    ensures bound { IfOk result (λ read. MatchOption read ⊤ (λ size. size ≤ length lent.new)) }
    ensures taken { IfOk result (λ read. MatchOption read
        (TakesLast (R.remaining input.old) (R.remaining input.new))
        (λ size. TakesWord (R.remaining input.old) (R.remaining input.new))) }
{
    let mut head = [0u8; 4];
    if streams::read_full(input, &mut head)? < 4 {
        return Ok(None);
    }
    let size = word_within(&head, 0, lent.len() / 4) * 4;
    lent[..size].fill(0);
    streams::read_full(input, &mut lent[..size])?;
    Ok(Some(size))
}
