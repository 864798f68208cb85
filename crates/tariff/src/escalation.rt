ghost use Rattle.std.specs.Prelude.{◌≡◌};
ghost use Rattle.tariff.specs.Escalation.{escalation};

use crate::rounding::half_up;
use units::{MOST_CPI, MOST_RATE, Rate, Refusal, keep};

// Cl. 9.2: a rate carried from an earlier CPI to a new one, both in tenths.
#[tactic(auto, unfolding(crate::specs::Escalation::escalation_check, units::specs::Refusals::first_refusal))]
pub fn escalate(old: Rate, new_cpi: u32, old_cpi: u32) -> Result<Rate, Refusal>
    ensures { result ≡ escalation old new_cpi old_cpi }
{
    let escalated = half_up(old.0 as u64 * new_cpi as u64, old_cpi as u64);
    keep(old.0 <= MOST_RATE.0, 3)?;
    keep(new_cpi <= MOST_CPI, 3)?;
    keep(old_cpi <= MOST_CPI, 3)?;
    keep(0 < old_cpi, 10)?;
    keep(escalated <= MOST_RATE.0 as u64, 8)?;
    Ok(Rate(escalated as u32))
}
