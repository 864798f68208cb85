ghost use Rattle.std.specs.Prelude.{◌≡◌};
ghost use Rattle.sharing.specs.Round.{top};
ghost use Rattle.rounds.specs.Private.{given_at};

use crate::rows::Sharers;
use crate::share::share_at_top;

// The rows together: all that the top can give them, and their weights.
#[derive(Clone, Copy)]
pub struct Whole {
    pub most: u32,
    pub weights: u32,
}

impl Sharers<'_> {
    // No product is needed, for at the top each row with a weight is full.
    pub(crate) fn whole(&self) -> Whole
        ensures { result.most ≡ given_at self.now.weights.now self.now.needs.now top }
    {
        let mut most: u32 = 0;
        let mut weights: u32 = 0;
        for row in 0..self.weights.len() {
            most += share_at_top(self.weights[row], self.needs[row]);
            weights += self.weights[row];
        }
        Whole { most, weights }
    }
}
