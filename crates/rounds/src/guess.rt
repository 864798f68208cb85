// Guesses of a level. The search tests each level that it takes, so a guess decides how soon it ends and never what it finds.
ghost use Rattle.std.specs.Prelude.{◌+◌, ◌≤◌, ◌<◌, ◌↔◌, IsTrue};
ghost use Rattle.sharing.specs.Round.{top};

use crate::pass::Pass;
use crate::share::TOP;

// So many passes may follow a guess, for each may fill one of 64 rows; after them the search halves.
const GUESSES: u64 = 64;

// How far a level moves while rows of so much weight take so many gigajoules, and half of one, for rounding down hides a part.
pub fn step(gigajoules: u32, weight: u32) -> u64
    ensures { result ≤ 10_000_000_000_000_000 }
{
    if weight == 0 {
        return TOP;
    }
    (2 * gigajoules as u64 + 1) * 500_000 / weight as u64 + 1
}

// Above a level that fits: where the rows that are short would take what is left. The top where nothing is left, and where no row was
// given more than at the level before, for then several rows wait for one level.
pub fn raised(capacity: u32, given: u32, level: u64, pass: Pass) -> u64
    requires { (level ≤ top) × (pass.total ≤ capacity) }
{
    if pass.total == capacity || pass.total == given {
        return TOP;
    }
    level + step(capacity - pass.total, pass.short)
}

// Below a level that does not fit: where they would give back what is too much, or zero.
pub fn lowered(capacity: u32, level: u64, pass: Pass) -> u64
    requires { capacity < pass.total }
{
    level.saturating_sub(step(pass.total - capacity - 1, pass.short))
}

// Whether a guess can be taken.
pub fn is_between(low: u64, guess: u64, high: u64) -> bool
    ensures { IsTrue result ↔ (low < guess) × (guess < high) }
{
    low < guess && guess < high
}

// A level between the two: the guess, or the next to low where it is not between them; after too many passes the middle.
pub fn between(low: u64, guess: u64, high: u64, passes: u64) -> u64
    requires { (low + 1 < high) × (high ≤ top) }
    ensures { (low < result) × (result < high) }
{
    if GUESSES <= passes {
        return low + (high - low) / 2;
    }
    if !is_between(low, guess, high) {
        return low + 1;
    }
    guess
}
