// One sharing round, opened: the level and the shares of a capacity, or a refusal.
#![tactic(auto)]

mod examine;
mod fill;
mod guess;
mod level;
mod pass;
mod rows;
mod share;
mod unchanged;
mod whole;

ghost use Rattle.rounds.specs.Answer.{RoundAnswered};

use rows::Sharers;
use units::{Gigajoules, Refusal};

// A round's level, and what its rows are given together.
#[derive(Clone, Copy)]
pub struct Given {
    pub level: u64,
    pub total: Gigajoules,
}

// 01, "One sharing round": each row's share goes to the front of `shares`; a refusal leaves it as it was.
pub fn share_round(
    capacity: Gigajoules,
    weights: &[u32],
    needs: &[u32],
    shares: &mut [u32],
) -> Result<Given, Refusal>
    ensures { RoundAnswered capacity.0 weights.now needs.now
        shares.old result shares.new }
{
    examine::examine(capacity.0, weights, needs, shares.len())?;
    let sharers = Sharers { weights, needs };
    let level = sharers.level_of(capacity.0);
    let total = Gigajoules(sharers.fill(level, shares));
    Ok(Given { level, total })
}
