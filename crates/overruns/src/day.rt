ghost use Rattle.std.specs.Prelude.{◌≡◌, length};
ghost use Rattle.columns.specs.Column.{col};
ghost use Rattle.excesses.specs.TwelveHourly.{twelve_hourly};
ghost use Rattle.metered.specs.Hours.{bare_hours, delivered, received};
ghost use Rattle.metered.specs.Private.{Within, RowsWithin, ComparedWithin, BackhaulWithin};
ghost use Rattle.overruns.specs.Daily.{daily};
ghost use Rattle.overruns.specs.Day.{with_greatest, day_check, day_answer};
ghost use Rattle.overruns.specs.Excused.{excused_hourly, excused_day_check, excused_day_answer};

use crate::daily::both_daily;
use crate::hourly::hourly;
use crate::twelve_hourly::{compared_days, twelve_hourly};
use metered::{
    Side, both_days, examine_excused, examine_excused_hours, examine_hours, examine_mdqs,
    examine_sides,
};
use units::{Gigajoules, MOST_HOUR, Megajoules, Refusal, greater, megajoules_within};

// The four overruns of a shipper's day, and the greatest of them.
#[derive(Clone, Copy)]
pub struct Overruns {
    pub hourly: Megajoules,
    pub twelve_hourly: Megajoules,
    pub daily_receipt: Megajoules,
    pub daily_delivery: Megajoules,
    pub greatest: Megajoules,
}

// A shipper's day: the figures of a tag 5 field, both sides' hours as two rows, delivered first.
#[derive(Clone, Copy)]
pub struct ShipperDay {
    pub p: Gigajoules,
    pub m: Gigajoules,
    pub yesterday: [Megajoules; 11],
    pub hours: [[Megajoules; 24]; 2],
    pub receipt: Side,
    pub delivery: Side,
}

// Its excused hours: yesterday's 11, and both sides' as two rows, delivered first.
#[derive(Clone, Copy)]
pub struct ExcusedHours {
    pub yesterday: [Megajoules; 11],
    pub hours: [[Megajoules; 24]; 2],
}

// All four overruns and the greatest: twelve-hourly from the 35 hours of both days as they are compared, hourly from today's metered and
// excused, daily from those metered.
fn four_overruns(day: &ShipperDay, both: &[u64], excused: [[Megajoules; 24]; 2]) -> Overruns
    requires both_len { (length both.now ≡ 35) × Within both.now }
    requires compared_within { ComparedWithin day.now.hours excused }
    requires rows_within { RowsWithin day.now.hours × BackhaulWithin day.now.receipt day.now.delivery }
    ensures { result ≡ with_greatest
        (excused_hourly day.now.m day.now.hours excused).0
        (twelve_hourly day.now.p.0 day.now.m.0 (col both.now))
        (daily (col (received day.now.hours)) day.now.receipt)
        (daily (col (delivered day.now.hours)) day.now.delivery) }
{
    let over_hours = hourly(day.m, day.hours, excused);
    let over_periods = twelve_hourly(day.p, day.m, both);
    let daily = both_daily(day.hours, day.receipt, day.delivery);
    let daily_receipt = daily.receipt;
    let daily_delivery = daily.delivery;
    Overruns {
        hourly: over_hours,
        twelve_hourly: over_periods,
        daily_receipt,
        daily_delivery,
        greatest: greater(
            greater(over_hours, over_periods),
            greater(daily_receipt, daily_delivery),
        ),
    }
}

// The tests of a shipper's day but for what is excused, from yesterday's hours as a list too.
#[tactic(auto, unfolding(crate::specs::Day::day_check, units::specs::Refusals::first_refusal))]
fn examine_day(day: &ShipperDay, yesterday: &[u64]) -> Result<(), Refusal>
    requires { yesterday.now ≡ bare_hours day.now.yesterday }
    ensures { result ≡ day_check day.now }
{
    examine_mdqs(day.p, day.m)?;
    examine_sides(day.receipt, day.delivery)?;
    megajoules_within(yesterday, MOST_HOUR)?;
    examine_hours(day.hours)
}

// All of them, from the excused hours too.
#[tactic(auto, unfolding(crate::specs::Excused::excused_day_check, units::specs::Refusals::first_refusal))]
fn examine_excused_day(
    day: &ShipperDay,
    excused: &ExcusedHours,
    yesterday: &[u64],
    excused_yesterday: &[u64],
) -> Result<(), Refusal>
    requires yesterday { yesterday.now ≡ bare_hours day.now.yesterday }
    requires excused_yesterday { excused_yesterday.now ≡ bare_hours excused.now.yesterday }
    ensures { result ≡ excused_day_check day.now excused.now }
{
    examine_day(day, yesterday)?;
    examine_excused(yesterday, excused_yesterday)?;
    examine_excused_hours(day.hours, excused.hours)
}

// The overruns of a shipper's day of which nothing is excused.
pub fn metered_overruns(day: &ShipperDay) -> Result<Overruns, Refusal>
    ensures { result ≡ day_answer day.now }
{
    let both = both_days(day.yesterday, day.hours[0]);
    examine_day(day, &both[..11])?;
    let nothing = [[Megajoules(0); 24]; 2];
    Ok(four_overruns(day, &both, nothing))
}

// The same with what is excused of the hours (cl. 5.4).
pub fn overruns_of_day(day: &ShipperDay, excused: &ExcusedHours) -> Result<Overruns, Refusal>
    ensures { result ≡ excused_day_answer day.now excused.now }
{
    let both = both_days(day.yesterday, day.hours[0]);
    let excused_both = both_days(excused.yesterday, excused.hours[0]);
    examine_excused_day(day, excused, &both[..11], &excused_both[..11])?;
    let compared = compared_days(&both, &excused_both);
    Ok(four_overruns(day, &compared, excused.hours))
}
