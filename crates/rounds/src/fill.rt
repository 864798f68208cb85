ghost use Rattle.std.specs.Prelude.{◌≤◌, length};
ghost use Rattle.sharing.specs.Round.{top};
ghost use Rattle.rounds.specs.Private.{Filled};

use crate::rows::Sharers;
use crate::share::share_at;

impl Sharers<'_> {
    // Writes what a level gives each row to the front of `shares`, and returns what it gives them together.
    pub(crate) fn fill(&self, level: u64, shares: &mut [u32]) -> u32
        requires { (level ≤ top) × (length self.now.weights.now ≤ length shares.old) }
        ensures { Filled self.now.weights.now self.now.needs.now level shares.old result shares.new }
    {
        let mut total: u32 = 0;
        for row in 0..self.weights.len() {
            let share = share_at(self.weights[row], self.needs[row], level);
            shares[row] = share;
            total += share;
        }
        total
    }
}
