ghost use Rattle.std.specs.Prelude.{◌≡◌};
ghost use Rattle.rounds.specs.Answer.{round_check};

use units::{MOST_CAPACITY, MOST_GIGAJOULES, MOST_ROWS, Refusal, gigajoules_within, keep};

// The first of a round's tests that the input fails, with room for so many shares.
#[tactic(auto, unfolding(crate::specs::Answer::round_check, units::specs::Refusals::first_refusal))]
pub fn examine(capacity: u32, weights: &[u32], needs: &[u32], room: usize) -> Result<(), Refusal>
    ensures { result ≡ round_check capacity weights.now needs.now room }
{
    keep(weights.len() == needs.len(), 9)?;
    keep(capacity <= MOST_CAPACITY.0, 3)?;
    keep(weights.len() <= MOST_ROWS, 3)?;
    gigajoules_within(weights, MOST_GIGAJOULES)?;
    gigajoules_within(needs, MOST_GIGAJOULES)?;
    keep(weights.len() <= room, 7)
}
