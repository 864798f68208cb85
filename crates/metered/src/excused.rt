ghost use Rattle.std.specs.Prelude.{◌≡◌, true, ◌-◌, Ok};
ghost use Rattle.metered.specs.Hours.{bare_hours};
ghost use Rattle.metered.specs.Excused.{both_have, first_above_metered, excused_check, excused_hours_check};

use crate::hours::bare_hours;
use units::{Megajoules, Refusal, clear};

// Whether no hour has more excused than was metered. All are looked at, by their index, and so several at once.
fn excused_keep(metered: &[u64], excused: &[u64]) -> bool
    ensures { result ≡ true → both_have metered.now excused.now
        ≡ first_above_metered metered.now excused.now }
{
    let mut kept = true;
    for hour in 0..metered.len().min(excused.len()) {
        if metered[hour] < excused[hour] {
            kept = false;
        }
    }
    kept
}

// The lowest hour of which more is excused than was metered, or how many hours both lists have where there is none.
fn first_above_metered(metered: &[u64], excused: &[u64]) -> usize
    ensures { result ≡ first_above_metered metered.now excused.now }
{
    let hours = metered.len().min(excused.len());
    if excused_keep(metered, excused) {
        return hours;
    }
    metered
        .iter()
        .zip(excused)
        .position(|(most, gone)| most < gone)
        .unwrap_or(hours)
}

// Whether a list's excused hours are within those metered.
pub fn examine_excused(metered: &[u64], excused: &[u64]) -> Result<(), Refusal>
    ensures { result ≡ excused_check metered.now excused.now }
{
    let hours = metered.len().min(excused.len());
    clear(hours, first_above_metered(metered, excused), 3)
}

// Whether no hour of a row has more excused than was metered, without a list of its hours. All are looked at, by their index as above.
fn row_keeps(metered: [Megajoules; 24], excused: [Megajoules; 24]) -> bool
    ensures { result ≡ true → excused_check (bare_hours metered) (bare_hours excused) ≡ Ok tt }
{
    let mut kept = true;
    for hour in 0..24usize {
        if metered[hour].0 < excused[hour].0 {
            kept = false;
        }
    }
    kept
}

// Whether a row's excused hours are within those metered.
fn examine_excused_row(metered: [Megajoules; 24], excused: [Megajoules; 24]) -> Result<(), Refusal>
    ensures { result ≡ excused_check (bare_hours metered) (bare_hours excused) }
{
    if row_keeps(metered, excused) {
        return Ok(());
    }
    let metered_hours = bare_hours(metered);
    let excused_hours = bare_hours(excused);
    examine_excused(&metered_hours, &excused_hours)
}

// Whether both sides' are, delivered first.
#[tactic(auto, unfolding(crate::specs::Excused::excused_hours_check, units::specs::Refusals::first_refusal))]
pub fn examine_excused_hours(
    hours: [[Megajoules; 24]; 2],
    excused: [[Megajoules; 24]; 2],
) -> Result<(), Refusal>
    ensures { result ≡ excused_hours_check hours excused }
{
    examine_excused_row(hours[0], excused[0])?;
    examine_excused_row(hours[1], excused[1])
}

// What is above a limit, or left of an hour once so much of it is excused.
pub fn excess(gas: Megajoules, limit: Megajoules) -> Megajoules
    ensures { result.0 ≡ gas.0 - limit.0 }
{
    Megajoules(gas.0.saturating_sub(limit.0))
}
