ghost use Rattle.std.specs.Prelude.{◌≡◌, true, not, ◌&&◌, fold};
ghost use Rattle.std.specs.List.{position_or_len};
ghost use Rattle.std.specs.Ordering.{partial_lt};
ghost use Rattle.columns.specs.Column.{col};
ghost use Rattle.units.specs.Above.{first_above};

use crate::{Gigajoules, Megajoules};

// A row's gigajoules, zero past the list.
pub fn gigajoules_at(figures: &[u32], row: usize) -> u32
    ensures { result ≡ col figures.now row }
{
    figures.get(row).copied().unwrap_or(0)
}

// Whether no figure is above the most allowed. All are looked at, and so several at once.
fn keep<T: Copy + PartialOrd>(figures: &[T], most: T) -> bool
    ensures { result
        ≡ fold (λ kept figure. kept && not (partial_lt T.partial_cmp most figure)) true figures.now }
{
    figures
        .iter()
        .fold(true, |kept, figure| kept & !(most < *figure))
}

// The place of the first figure above the most allowed, or the number of figures where none is.
fn first_above<T: Copy + PartialOrd>(figures: &[T], most: T) -> usize
    ensures { result ≡ position_or_len (partial_lt T.partial_cmp most) figures.now }
{
    if keep(figures, most) {
        return figures.len();
    }
    figures
        .iter()
        .position(|figure| most < *figure)
        .unwrap_or(figures.len())
}

// The lowest row whose gigajoules are above the most allowed, or the number of rows where none is.
pub fn first_gigajoules_above(figures: &[u32], most: Gigajoules) -> usize
    ensures { result ≡ first_above most.0 figures.now }
{
    first_above(figures, most.0)
}

// The same of megajoules.
pub fn first_megajoules_above(figures: &[u64], most: Megajoules) -> usize
    ensures { result ≡ first_above most.0 figures.now }
{
    first_above(figures, most.0)
}
