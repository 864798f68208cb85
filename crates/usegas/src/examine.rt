ghost use Rattle.std.specs.Prelude.{◌≡◌};
ghost use Rattle.usegas.specs.Share.{beyond};
ghost use Rattle.usegas.specs.General.{general_check};

use crate::general::NO_FOUNDATION;
use crate::schedules::is_unscheduled;
use units::{MOST_GIGAJOULES, MOST_ROWS, MOST_SYSTEM_USE, Refusal, gigajoules_within, keep};

// Whether the Foundation Shipper's place is no row and not the one for none.
#[tactic(auto, unfolding(crate::specs::Share::beyond))]
fn is_beyond(foundation: usize, rows: usize) -> bool
    ensures { result ≡ beyond foundation rows }
{
    rows <= foundation && foundation != NO_FOUNDATION
}

// The first of the tests that the input fails, with room for so many shares. What is untested stands apart; tested, it is a `Sharing`.
#[tactic(auto, unfolding(crate::specs::General::general_check, units::specs::Refusals::first_refusal))]
pub fn examine(
    gas: u64,
    supplied: u64,
    foundation: usize,
    schedules: &[u32],
    room: usize,
) -> Result<(), Refusal>
    ensures { result ≡ general_check gas supplied foundation schedules.now room }
{
    keep(gas <= MOST_SYSTEM_USE.0, 3)?;
    keep(supplied <= MOST_SYSTEM_USE.0, 3)?;
    keep(schedules.len() <= MOST_ROWS, 3)?;
    keep(!is_beyond(foundation, schedules.len()), 3)?;
    gigajoules_within(schedules, MOST_GIGAJOULES)?;
    keep(supplied <= gas, 11)?;
    keep(!is_unscheduled(gas, supplied, foundation, schedules), 10)?;
    keep(schedules.len() <= room, 7)
}
