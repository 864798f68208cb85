ghost use Rattle.std.specs.Prelude.{◌≡◌, ◌+◌, length};
ghost use Rattle.columns.specs.Column.{col};
ghost use Rattle.columns.specs.Sum.{sum};
ghost use Rattle.metered.specs.Private.{Within};
ghost use Rattle.metered.specs.Excused.{compared};
ghost use Rattle.excesses.specs.TwelveHourly.{period_limit, twelve_hourly};
ghost use Rattle.overruns.specs.Excused.{excused_twelve_hourly_check, excused_twelve_hourly_answer};

use crate::gas::{gas_of, thousandths};
use metered::{examine_excused, examine_mdqs, excess};
use units::{Gigajoules, MOST_HOUR, Megajoules, Refusal, keep, megajoules_within};

// The limit of the period that ends with hour h of today, whose first 12 − h hours are yesterday's.
fn period_limit(p: Gigajoules, m: Gigajoules, h: u64) -> Megajoules
    ensures { result.0 ≡ period_limit p.0 m.0 h }
{
    if 12 <= h {
        return thousandths(564, m);
    }
    let yesterday = thousandths(47 * (12 - h), p);
    let today = thousandths(47 * h, m);
    Megajoules(yesterday.0 + today.0)
}

// The gas of twelve hours from that of the twelve before: of thirteen hours, the last enters and the first leaves.
fn next_sum(before: Megajoules, hours: &[u64]) -> Megajoules
    requires hours_len { (length hours.now ≡ 13) × Within hours.now }
    requires before_value { before.0 ≡ sum 12 (col hours.now) }
    ensures { result.0 ≡ sum 12 (λ hour. col hours.now (1 + hour)) }
{
    let entering = hours[12];
    let leaving = hours[0];
    let sum = before.0 + entering - leaving;
    Megajoules(sum)
}

// The sum of the excesses of the 24 periods, each of which ends with an hour h of today. Only the first period's hours are added
// up: each later sum comes from the one before, so that whoever steps through sees one hour enter and one leave (C-13).
pub fn twelve_hourly(p: Gigajoules, m: Gigajoules, hours: &[u64]) -> Megajoules
    requires { (length hours.now ≡ 35) × Within hours.now }
    ensures { result.0 ≡ twelve_hourly p.0 m.0 (col hours.now) }
{
    let mut sum = gas_of(&hours[0..12]);
    let limit = period_limit(p, m, 1);
    let over = excess(sum, limit);
    let mut total = over.0;
    for h in 2..25usize {
        sum = next_sum(sum, &hours[h - 2..h + 11]);
        let limit = period_limit(p, m, h as u64);
        let over = excess(sum, limit);
        total += over.0;
    }
    Megajoules(total)
}

// Both days' 35 hours as they are compared with a period's limit: metered less excused.
pub fn compared_days(metered: &[u64], excused: &[u64]) -> [u64; 35]
    requires { (length metered.now ≡ 35) × (length excused.now ≡ 35) }
    ensures { result ≡ compared metered.now excused.now }
{
    std::array::from_fn(|hour| metered[hour].saturating_sub(excused[hour]))
}

// The first of the tests that the figures fail.
#[tactic(auto, unfolding(crate::specs::Excused::excused_twelve_hourly_check, units::specs::Refusals::first_refusal))]
fn examine(p: Gigajoules, m: Gigajoules, hours: &[u64], excused: &[u64]) -> Result<(), Refusal>
    ensures { result ≡ excused_twelve_hourly_check p m hours.now excused.now }
{
    keep(hours.len() == 35, 9)?;
    keep(excused.len() == 35, 9)?;
    examine_mdqs(p, m)?;
    megajoules_within(hours, MOST_HOUR)?;
    examine_excused(hours, excused)
}

// The twelve-hourly overrun from P and M, yesterday's and today's Adjusted MDQ, and 35 delivered hours, yesterday's 11 first, metered
// and excused (cl. 5.4).
pub fn twelve_hourly_overrun(
    p: Gigajoules,
    m: Gigajoules,
    hours: &[u64],
    excused: &[u64],
) -> Result<Megajoules, Refusal>
    ensures { result ≡ excused_twelve_hourly_answer p m hours.now excused.now }
{
    examine(p, m, hours, excused)?;
    let compared = compared_days(hours, excused);
    Ok(twelve_hourly(p, m, &compared))
}
