ghost use Rattle.std.specs.Prelude.{◌≡◌};
ghost use Rattle.units.specs.Refusals.{plain, at_row, at_byte, keep, clear, within, placed};

use crate::above::{first_gigajoules_above, first_megajoules_above};
use crate::{Gigajoules, Megajoules};

// Why a call is refused: 01's number, and the place.
#[derive(Clone, Copy)]
pub struct Refusal {
    pub number: u8,
    pub place: usize,
}

impl Refusal {
    // A single figure, a count, list lengths, totals or output: place 0.
    pub fn plain(number: u8) -> Self
        ensures { result ≡ plain number }
    {
        Self { number, place: 0 }
    }

    // In a list: the row from 0.
    pub fn at_row(number: u8, row: usize) -> Self
        ensures { result ≡ at_row number row }
    {
        Self { number, place: row }
    }

    // In a file: the field's first byte.
    pub fn at_byte(number: u8, byte: usize) -> Self
        ensures { result ≡ at_byte number byte }
    {
        Self {
            number,
            place: byte,
        }
    }
}

// Refused by number, unless kept.
#[tactic(auto, unfolding(crate::specs::Refusals::keep))]
pub fn keep(kept: bool, number: u8) -> Result<(), Refusal>
    ensures { result ≡ keep kept number }
{
    if kept {
        return Ok(());
    }
    Err(Refusal::plain(number))
}

// Refused by number at the row found, unless it is past the rows.
#[tactic(auto, unfolding(crate::specs::Refusals::clear))]
pub fn clear(rows: usize, found: usize, number: u8) -> Result<(), Refusal>
    ensures { result ≡ clear rows found number }
{
    if rows <= found {
        return Ok(());
    }
    Err(Refusal::at_row(number, found))
}

// A refusal told by its number at a row, whatever its place was.
#[tactic(auto, unfolding(crate::specs::Refusals::placed))]
pub fn placed(found: Result<(), Refusal>, row: usize) -> Result<(), Refusal>
    ensures { result ≡ placed row found }
{
    found.map_err(|refusal| Refusal::at_row(refusal.number, row))
}

// 3 at the lowest row of gigajoules beyond their bound.
pub fn gigajoules_within(figures: &[u32], most: Gigajoules) -> Result<(), Refusal>
    ensures { result ≡ within most.0 figures.now }
{
    clear(figures.len(), first_gigajoules_above(figures, most), 3)
}

// The same of megajoules.
pub fn megajoules_within(figures: &[u64], most: Megajoules) -> Result<(), Refusal>
    ensures { result ≡ within most.0 figures.now }
{
    clear(figures.len(), first_megajoules_above(figures, most), 3)
}
