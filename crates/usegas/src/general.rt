ghost use Rattle.usegas.specs.General.{GasAnswered};
ghost use Rattle.usegas.specs.Heater.{HeaterAnswered};

use crate::examine::examine;
use crate::schedules::Schedules;
use crate::share::Sharing;
use units::{Megajoules, Refusal};

// The place of the Foundation Shipper where no row is its own.
pub const NO_FOUNDATION: usize = 255;

// Cl. 4.2: each shipper's share of SUG less what the Foundation Shipper supplied, FSSUG, goes to the front of `shares`; a refusal
// leaves it as it was.
pub fn share_general(
    gas: Megajoules,
    supplied: Megajoules,
    foundation: usize,
    schedules: &[u32],
    shares: &mut [u64],
) -> Result<Megajoules, Refusal>
    ensures { GasAnswered gas.0 supplied.0 foundation schedules.now shares.old result shares.new }
{
    examine(gas.0, supplied.0, foundation, schedules, shares.len())?;
    let schedules = Schedules {
        foundation,
        rows: schedules,
    };
    let given = Sharing::new(gas.0 - supplied.0, schedules).fill(shares);
    Ok(Megajoules(given))
}

// Cl. 4.5: the same rule with nobody excepted.
pub fn share_heater(
    gas: Megajoules,
    schedules: &[u32],
    shares: &mut [u64],
) -> Result<Megajoules, Refusal>
    ensures { HeaterAnswered gas.0 schedules.now shares.old result shares.new }
{
    share_general(gas, Megajoules(0), NO_FOUNDATION, schedules, shares)
}
