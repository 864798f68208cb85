ghost use Rattle.std.specs.Prelude.{◌≡◌};
ghost use Rattle.usegas.specs.Fuel.{bounded_size, fuel_check, positive, fuel, imbalance_fuel};

use units::{Gigajoules, MOST_GIGAJOULES, MOST_IMBALANCE, Megajoules, Refusal, greater, keep};

// A shipper's accumulated imbalance in megajoules, either way.
#[derive(Clone, Copy)]
pub struct Imbalance(pub i64);

// Whether an imbalance is within its bound either way.
fn is_bounded(imbalance: Imbalance) -> bool
    ensures { result ≡ bounded_size imbalance.0 }
{
    imbalance.0.unsigned_abs() <= MOST_IMBALANCE.0
}

// A positive imbalance; one below zero counts as none.
fn positive(imbalance: Imbalance) -> Megajoules
    ensures { result.0 ≡ positive imbalance.0 }
{
    Megajoules(imbalance.0.max(0).unsigned_abs())
}

// A hundredth of what an imbalance is above eight hundredths of the MDQ.
fn fuel(imbalance: Megajoules, mdq: Gigajoules) -> Megajoules
    ensures { result ≡ fuel imbalance mdq }
{
    let allowed = units::in_megajoules(mdq).0 * 80 / 1000;
    Megajoules(imbalance.0.saturating_sub(allowed) / 100)
}

// The first of the tests that the input fails.
#[tactic(auto, unfolding(crate::specs::Fuel::fuel_check, units::specs::Refusals::first_refusal))]
fn examine(start: Imbalance, end: Imbalance, mdq: Gigajoules) -> Result<(), Refusal>
    ensures { result ≡ fuel_check start end mdq }
{
    keep(is_bounded(start), 3)?;
    keep(is_bounded(end), 3)?;
    keep(mdq.0 <= MOST_GIGAJOULES.0, 3)
}

// Cl. 4.3: the fuel of the greater positive imbalance of a day's start and end.
pub fn imbalance_fuel(
    start: Imbalance,
    end: Imbalance,
    mdq: Gigajoules,
) -> Result<Megajoules, Refusal>
    ensures { result ≡ imbalance_fuel start end mdq }
{
    examine(start, end, mdq)?;
    let imbalance = greater(positive(start), positive(end));
    Ok(fuel(imbalance, mdq))
}
