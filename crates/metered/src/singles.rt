ghost use Rattle.std.specs.Prelude.{◌≡◌};
ghost use Rattle.metered.specs.Singles.{mdqs_check, side_check, sides_check};

use crate::Side;
use units::{Gigajoules, MOST_BACKHAUL, MOST_GIGAJOULES, Refusal, keep};

// Whether P and M are within their bound.
#[tactic(auto, unfolding(crate::specs::Singles::mdqs_check, units::specs::Refusals::first_refusal))]
pub fn examine_mdqs(p: Gigajoules, m: Gigajoules) -> Result<(), Refusal>
    ensures { result ≡ mdqs_check p m }
{
    keep(p.0 <= MOST_GIGAJOULES.0, 3)?;
    keep(m.0 <= MOST_GIGAJOULES.0, 3)
}

// Whether a side's single figures are within their bounds.
#[tactic(auto, unfolding(crate::specs::Singles::side_check, units::specs::Refusals::first_refusal))]
fn examine_side(side: Side) -> Result<(), Refusal>
    ensures { result ≡ side_check side }
{
    keep(side.forward.0 <= MOST_GIGAJOULES.0, 3)?;
    keep(side.backhaul.0 <= MOST_GIGAJOULES.0, 3)?;
    keep(side.metered.0 <= MOST_BACKHAUL.0, 3)
}

// Whether both sides' are.
#[tactic(auto, unfolding(crate::specs::Singles::sides_check, units::specs::Refusals::first_refusal))]
pub fn examine_sides(receipt: Side, delivery: Side) -> Result<(), Refusal>
    ensures { result ≡ sides_check receipt delivery }
{
    examine_side(receipt)?;
    examine_side(delivery)
}
