ghost use Rattle.std.specs.Prelude.{◌≡◌, ◌≤◌};
ghost use Rattle.sharing.specs.Round.{top};
ghost use Rattle.rounds.specs.Private.{given_at};

use crate::rows::Sharers;
use crate::share::share_at;

// One pass over the rows at a level: what they are given together, and the weights of the rows that stay short.
#[derive(Clone, Copy)]
pub struct Pass {
    pub total: u32,
    pub short: u32,
}

impl Sharers<'_> {
    pub(crate) fn pass_at(&self, level: u64) -> Pass
        requires { level ≤ top }
        ensures { result.total ≡ given_at self.now.weights.now self.now.needs.now level }
    {
        let mut total: u32 = 0;
        let mut short: u32 = 0;
        // By index, here and in the two other passes: tried as a zip, a round took one and a half times as long.
        for row in 0..self.weights.len() {
            let weight = self.weights[row];
            let need = self.needs[row];
            let share = share_at(weight, need, level);
            total += share;
            if share < need {
                short += weight;
            }
        }
        Pass { total, short }
    }
}
