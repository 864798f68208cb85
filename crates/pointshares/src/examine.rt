ghost use Rattle.std.specs.Prelude.{◌≡◌};
ghost use Rattle.pointshares.specs.Answer.{hour_check};

use crate::stranded::is_stranded;
use units::{
    MOST_GIGAJOULES, MOST_HOUR, MOST_ROWS, Refusal, gigajoules_within, keep, megajoules_within,
};

// The first of an hour's tests that the input fails, with room for so many shares. What is untested stands apart; then it is a `Sharing`.
#[tactic(auto, unfolding(crate::specs::Answer::hour_check, units::specs::Refusals::first_refusal))]
pub fn examine(
    capacity: u64,
    entitlements: &[u64],
    mdqs: &[u32],
    room: usize,
) -> Result<(), Refusal>
    ensures { result ≡ hour_check capacity entitlements.now mdqs.now room }
{
    keep(entitlements.len() == mdqs.len(), 9)?;
    keep(capacity <= MOST_HOUR.0, 3)?;
    keep(entitlements.len() <= MOST_ROWS, 3)?;
    megajoules_within(entitlements, MOST_HOUR)?;
    gigajoules_within(mdqs, MOST_GIGAJOULES)?;
    keep(!is_stranded(capacity, entitlements, mdqs), 6)?;
    keep(entitlements.len() <= room, 7)
}
