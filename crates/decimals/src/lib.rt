// A word read as one decimal number within a bound, opened.
#![tactic(auto)]

ghost use Rattle.std.specs.Prelude.{◌≡◌, not, ◌+◌, min, length};
ghost use Rattle.columns.specs.Column.{col};
ghost use Rattle.columns.specs.First.{first};
ghost use Rattle.text.specs.Text.{value};
ghost use Rattle.decimals.specs.Word.{is_digit, decimal_of};

use units::{Refusal, keep};

// The place of the first byte that is no digit, or the word's length.
fn first_other(word: &[u8]) -> usize
    ensures { result ≡ first (length word.now) (λ place. not (is_digit (col word.now place))) }
{
    word.iter()
        .position(|byte| !byte.is_ascii_digit())
        .unwrap_or(word.len())
}

// The smaller of what digits spell and the first number beyond a bound, however many digits there are.
fn value_up_to(word: &[u8], most: u32) -> usize
    ensures { result ≡ min (value word.now) (most + 1) }
{
    let beyond = most as usize + 1;
    let mut number = 0;
    for byte in word {
        let digit = byte.saturating_sub(b'0') as usize;
        number = (number * 10 + digit).min(beyond);
    }
    number
}

// 3 unless the word is digits alone, at least one, that spell a number within the bound.
#[tactic(auto, unfolding(crate::specs::Word::word_check, units::specs::Refusals::first_refusal))]
pub fn decimal_of(word: &[u8], most: u32) -> Result<u32, Refusal>
    ensures { result ≡ decimal_of word.now most }
{
    let number = value_up_to(word, most);
    keep(0 < word.len(), 3)?;
    keep(word.len() <= first_other(word), 3)?;
    keep(number <= most as usize, 3)?;
    Ok(number as u32)
}
