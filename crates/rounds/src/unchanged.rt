// How far a level rises before a row is given more.
ghost use Rattle.std.specs.Prelude.{◌≤◌, ◌<◌};
ghost use Rattle.sharing.specs.Round.{share, top};
ghost use Rattle.rounds.specs.Private.{given_at};

use crate::rows::Sharers;
use crate::share::share_at;

impl Sharers<'_> {
    // The last level below `high` at which no row is given more than at `low`.
    pub(crate) fn last_unchanged(&self, low: u64, high: u64) -> u64
        requires { (low < high) × (high ≤ top) }
        ensures { (low ≤ result) × (result < high)
            × (given_at self.now.weights.now self.now.needs.now result
            ≤ given_at self.now.weights.now self.now.needs.now low) }
    {
        let mut last = high - 1;
        for row in 0..self.weights.len() {
            last = last_of_row(self.weights[row], self.needs[row], low, last);
        }
        last
    }
}

// The same of one row, up to `last`.
fn last_of_row(weight: u32, need: u32, low: u64, last: u64) -> u64
    requires { (weight ≤ 1_000_000) × (low ≤ last) × (last ≤ top) }
    ensures { (low ≤ result) × (result ≤ last) × (share weight need result ≤ share weight need low) }
{
    let share = share_at(weight, need, low);
    if share_at(weight, need, last) <= share {
        return last;
    }
    ((share as u64 + 1) * 1_000_000 - 1) / weight as u64
}
