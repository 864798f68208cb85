// An hour at a point, opened: the shares of its capacity, or a refusal.
#![tactic(auto)]

mod examine;
mod share;
mod stranded;
mod totals;

ghost use Rattle.pointshares.specs.Answer.{HourAnswered};

use units::{Megajoules, Refusal};

// 01, "An hour at a point": each shipper's share goes to the front of `shares`; a refusal leaves it as it was.
pub fn share_hour(
    capacity: Megajoules,
    entitlements: &[u64],
    mdqs: &[u32],
    shares: &mut [u64],
) -> Result<Megajoules, Refusal>
    ensures { HourAnswered capacity.0 entitlements.now mdqs.now
        shares.old result shares.new }
{
    examine::examine(capacity.0, entitlements, mdqs, shares.len())?;
    let given = share::Sharing::new(capacity.0, entitlements, mdqs).fill(shares);
    Ok(Megajoules(given))
}
