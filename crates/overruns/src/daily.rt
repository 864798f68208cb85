ghost use Rattle.std.specs.Prelude.{◌≡◌, ◌≤◌};
ghost use Rattle.columns.specs.Column.{col};
ghost use Rattle.units.specs.Bound.{most_backhaul};
ghost use Rattle.metered.specs.Hours.{bare_hours, delivered, received};
ghost use Rattle.metered.specs.Private.{Within, RowsWithin, BackhaulWithin};
ghost use Rattle.overruns.specs.Daily.{daily, both_daily, daily_check, daily_answer};

use crate::gas::gas_of;
use metered::{Side, bare_hours, examine_hours, examine_sides, excess};
use units::{Megajoules, Refusal, in_megajoules};

// The daily overruns of both sides. Here, hourly and twelve-hourly a routine takes its clause's figures alone, and no day of them all.
#[derive(Clone, Copy)]
pub struct Daily {
    pub receipt: Megajoules,
    pub delivery: Megajoules,
}

// The gas metered on a side over the day, backhaul included, above its schedules.
fn above_schedules(row: [Megajoules; 24], side: Side) -> Megajoules
    requires { Within (bare_hours row) × (side.metered.0 ≤ most_backhaul) }
    ensures { result.0 ≡ daily (col (bare_hours row)) side }
{
    let hours = bare_hours(row);
    let metered = gas_of(&hours).0 + side.metered.0;
    let scheduled = in_megajoules(side.forward).0 + in_megajoules(side.backhaul).0;
    excess(Megajoules(metered), Megajoules(scheduled))
}

// Both sides' daily overruns.
pub fn both_daily(hours: [[Megajoules; 24]; 2], receipt: Side, delivery: Side) -> Daily
    requires { RowsWithin hours × BackhaulWithin receipt delivery }
    ensures { result ≡ both_daily (delivered hours) (received hours) receipt delivery }
{
    let delivered = hours[0];
    let received = hours[1];
    Daily {
        receipt: above_schedules(received, receipt),
        delivery: above_schedules(delivered, delivery),
    }
}

// The first of the tests that the figures fail.
#[tactic(auto, unfolding(crate::specs::Daily::daily_check, units::specs::Refusals::first_refusal))]
fn examine(hours: [[Megajoules; 24]; 2], receipt: Side, delivery: Side) -> Result<(), Refusal>
    ensures { result ≡ daily_check hours receipt delivery }
{
    examine_sides(receipt, delivery)?;
    examine_hours(hours)
}

// The daily receipt and delivery overruns from both sides' hours, delivered first, and their single figures.
pub fn daily_overruns(
    hours: [[Megajoules; 24]; 2],
    receipt: Side,
    delivery: Side,
) -> Result<Daily, Refusal>
    ensures { result ≡ daily_answer hours receipt delivery }
{
    examine(hours, receipt, delivery)?;
    Ok(both_daily(hours, receipt, delivery))
}
