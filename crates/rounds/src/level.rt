ghost use Rattle.std.specs.Prelude.{◌≡◌, ◌≤◌, ◌<◌, length};
ghost use Rattle.columns.specs.Column.{col};
ghost use Rattle.sharing.specs.Round.{top, level};
ghost use Rattle.rounds.specs.Private.{given_at};

use crate::guess::{between, is_between, lowered, raised, step};
use crate::rows::Sharers;
use crate::share::TOP;

// So few levels are sooner tried one by one.
const FEW: u64 = 3;

impl Sharers<'_> {
    // The level of a round: the top where all that can be met is met there, else by a search below it.
    pub(crate) fn level_of(&self, capacity: u32) -> u64
        ensures { result ≡ level (length self.now.weights.now) (col self.now.weights.now) (col self.now.needs.now) capacity }
    {
        let whole = self.whole();
        if whole.most <= capacity {
            return TOP;
        }
        self.search(capacity, whole.weights)
    }

    // A level that fits and one that does not are brought together, by guesses first. They stay two numbers, for each turn moves one.
    fn search(&self, capacity: u32, weight: u32) -> u64
        requires { capacity < given_at self.now.weights.now self.now.needs.now top }
        ensures { result ≡ level (length self.now.weights.now) (col self.now.weights.now) (col self.now.needs.now) capacity }
    {
        let mut low: u64 = 0;
        let mut high = TOP;
        let mut given: u32 = 0;
        let mut passes: u64 = 0;
        let mut guess = step(capacity, weight);
        while low + 1 < high {
            let level = between(low, guess, high, passes);
            let pass = self.pass_at(level);
            passes += 1;
            if pass.total <= capacity {
                guess = raised(capacity, given, level, pass);
                given = pass.total;
                low = self.settled(level, guess, high);
            } else {
                high = level;
                guess = lowered(capacity, level, pass);
                low = self.settled(low, guess, high);
            }
        }
        low
    }

    // A level that fits; where the guess is not between it and `high`, the last one that gives no row more.
    fn settled(&self, level: u64, guess: u64, high: u64) -> u64
        requires { (level < high) × (high ≤ top) }
        ensures { (level ≤ result) × (result < high)
            × (given_at self.now.weights.now self.now.needs.now result
            ≤ given_at self.now.weights.now self.now.needs.now level) }
    {
        if is_between(level, guess, high) || high - level <= FEW {
            return level;
        }
        self.last_unchanged(level, high)
    }
}
