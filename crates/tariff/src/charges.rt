ghost use Rattle.std.specs.Prelude.{◌≡◌};
ghost use Rattle.tariff.specs.Charges.{overrun_charge, upward, larger, variation_charge, request_charge};

use crate::rounding::half_up;
use units::{
    Cents, Gigajoules, MOST_CHARGEABLE, MOST_GIGAJOULES, MOST_RATE, MOST_REQUESTS, Megajoules,
    Rate, Refusal, keep,
};

// A schedule before and after it is varied.
#[derive(Clone, Copy)]
pub struct Change {
    pub old: Gigajoules,
    pub new: Gigajoules,
}

// Cl. 7.2: the charge for a day's chargeable overrun.
#[tactic(auto, unfolding(crate::specs::Charges::overrun_check, units::specs::Refusals::first_refusal))]
pub fn overrun_charge(rate: Rate, overrun: Megajoules) -> Result<Cents, Refusal>
    ensures { result ≡ overrun_charge rate overrun }
{
    keep(rate.0 <= MOST_RATE.0, 3)?;
    keep(overrun.0 <= MOST_CHARGEABLE.0, 3)?;
    Ok(Cents(half_up(rate.0 as u64 * overrun.0, 1_000_000)))
}

// The gigajoules by which a schedule is varied up; a downward change counts zero.
fn upward(change: Change) -> Gigajoules
    ensures { result.0 ≡ (upward change).0 }
{
    Gigajoules(change.new.0.saturating_sub(change.old.0))
}

// The larger of two quantities.
fn larger(a: Gigajoules, b: Gigajoules) -> Gigajoules
    ensures { result.0 ≡ (larger a b).0 }
{
    Gigajoules(a.0.max(b.0))
}

// Cl. 9.3: the charge for varying a day's receipt and delivery schedules.
#[tactic(auto, unfolding(crate::specs::Charges::variation_check, units::specs::Refusals::first_refusal))]
pub fn variation_charge(rate: Rate, receipt: Change, delivery: Change) -> Result<Cents, Refusal>
    ensures { result ≡ variation_charge rate receipt delivery }
{
    keep(rate.0 <= MOST_RATE.0, 3)?;
    keep(receipt.old.0 <= MOST_GIGAJOULES.0, 3)?;
    keep(receipt.new.0 <= MOST_GIGAJOULES.0, 3)?;
    keep(delivery.old.0 <= MOST_GIGAJOULES.0, 3)?;
    keep(delivery.new.0 <= MOST_GIGAJOULES.0, 3)?;
    let quantity = larger(upward(receipt), upward(delivery));
    Ok(Cents(half_up(rate.0 as u64 * quantity.0 as u64, 1_000)))
}

// Cl. 9.5: the charge for a day's requests, each of them rounded.
#[tactic(auto, unfolding(crate::specs::Charges::request_check, units::specs::Refusals::first_refusal))]
pub fn request_charge(rate: Rate, requests: u32) -> Result<Cents, Refusal>
    ensures { result ≡ request_charge rate requests }
{
    keep(rate.0 <= MOST_RATE.0, 3)?;
    keep(requests <= MOST_REQUESTS, 3)?;
    Ok(Cents(half_up(rate.0 as u64, 1_000) * requests as u64))
}
