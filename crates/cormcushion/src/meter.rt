// One shipper's metered day: its overruns and their charge.
ghost use Rattle.std.specs.Prelude.{◌≡◌, ◌≤◌};
ghost use Rattle.tariff.specs.Charges.{overrun_charge};
ghost use Rattle.cormcushion.specs.Meter.{side_of, shipper_day, overrun_figures, rate_of};
ghost use Rattle.cormcushion.specs.Meter.{of_charge, with_charge, of_overruns, with_overruns, excused_of};
ghost use Rattle.cormcushion.specs.Meter.{PricePacked, ChargePacked, ExcusedChargePacked};

use crate::hours::hours_of;
use crate::packed::{accepted, refused};
use metered::Side;
use overruns::{ExcusedHours, Overruns, ShipperDay, metered_overruns, overruns_of_day};
use tariff::overrun_charge;
use units::{Gigajoules, MOST_RATE, Megajoules, Rate, Refusal, keep};

// The charge in cents for the greatest of a day's four overruns, with the four and the greatest in `lent`.
// The day's figures come one by one, here and below: the C interface.
pub fn cormcushion_overruns(
    rate: u32,
    p: u32,
    m: u32,
    yesterday: &[u64; 11],
    delivered: &[u64; 24],
    received: &[u64; 24],
    schedules: &[u32; 4],
    metered: &[u64; 2],
    lent: &mut [u64; 5],
) -> u64
    ensures { ChargePacked rate
        (shipper_day p m yesterday.now delivered.now received.now
        schedules.now metered.now)
        lent.old result lent.new }
{
    let day = shipper_day(p, m, yesterday, delivered, received, schedules, metered);
    price_rated(rate, metered_overruns(&day), lent)
}

// The same with hours excused (cl. 5.4): yesterday's, delivered, received.
pub fn cormcushion_overruns_excused(
    rate: u32,
    p: u32,
    m: u32,
    yesterday: &[u64; 11],
    delivered: &[u64; 24],
    received: &[u64; 24],
    schedules: &[u32; 4],
    metered: &[u64; 2],
    excused_yesterday: &[u64; 11],
    excused_delivered: &[u64; 24],
    excused_received: &[u64; 24],
    lent: &mut [u64; 5],
) -> u64
    ensures { ExcusedChargePacked rate
        (shipper_day p m yesterday.now delivered.now received.now
        schedules.now metered.now)
        (excused_of excused_yesterday.now excused_delivered.now excused_received.now)
        lent.old result lent.new }
{
    let day = shipper_day(p, m, yesterday, delivered, received, schedules, metered);
    let excused = excused_of(excused_yesterday, excused_delivered, excused_received);
    price_rated(rate, overruns_of_day(&day, &excused), lent)
}

// A side's single figures: 0 receipt, 1 delivery. A number, for it is a place in both lists.
fn side_of(schedules: &[u32; 4], metered: &[u64; 2], side: usize) -> Side
    requires { side ≤ 1 }
    ensures { result ≡ side_of schedules.now metered.now side }
{
    Side {
        forward: Gigajoules(schedules[side]),
        backhaul: Gigajoules(schedules[2 + side]),
        metered: Megajoules(metered[side]),
    }
}

// A shipper's day from its numbers.
fn shipper_day(
    p: u32,
    m: u32,
    yesterday: &[u64; 11],
    delivered: &[u64; 24],
    received: &[u64; 24],
    schedules: &[u32; 4],
    metered: &[u64; 2],
) -> ShipperDay
    ensures { result ≡ shipper_day p m yesterday.now delivered.now received.now
        schedules.now metered.now }
{
    ShipperDay {
        p: Gigajoules(p),
        m: Gigajoules(m),
        yesterday: hours_of(yesterday),
        hours: [hours_of(delivered), hours_of(received)],
        receipt: side_of(schedules, metered, 0),
        delivery: side_of(schedules, metered, 1),
    }
}

// Its excused hours.
fn excused_of(yesterday: &[u64; 11], delivered: &[u64; 24], received: &[u64; 24]) -> ExcusedHours
    ensures { result ≡ excused_of yesterday.now delivered.now received.now }
{
    ExcusedHours {
        yesterday: hours_of(yesterday),
        hours: [hours_of(delivered), hours_of(received)],
    }
}

// Hourly, twelve-hourly, daily receipt, daily delivery, the greatest.
fn figures_of(over: Overruns) -> [u64; 5]
    ensures { result ≡ overrun_figures over }
{
    [
        over.hourly.0,
        over.twelve_hourly.0,
        over.daily_receipt.0,
        over.daily_delivery.0,
        over.greatest.0,
    ]
}

// The charge for overruns. Rate and lent list stay apart, as C hands them in, here and below.
fn price(rate: u32, over: Overruns, lent: &mut [u64; 5]) -> u64
    ensures value { result ≡ of_charge (overrun_charge (rate_of rate) over.greatest) }
    ensures lent_after { lent.new ≡ with_charge (overrun_charge (rate_of rate) over.greatest) over lent.old }
{
    match overrun_charge(Rate(rate), over.greatest) {
        Err(refusal) => refused(refusal),
        Ok(cents) => {
            *lent = figures_of(over);
            accepted(cents.0)
        }
    }
}

// The charge for a day's overruns, where they are not refused.
fn price_day(rate: u32, over: Result<Overruns, Refusal>, lent: &mut [u64; 5]) -> u64
    ensures value { result ≡ of_overruns rate over }
    ensures lent_after { lent.new ≡ with_overruns rate over lent.old }
{
    match over {
        Err(refusal) => refused(refusal),
        Ok(overruns) => price(rate, overruns, lent),
    }
}

// The same where the rate is within its bound: the refusal of a single figure comes before those of hours.
fn price_rated(rate: u32, over: Result<Overruns, Refusal>, lent: &mut [u64; 5]) -> u64
    ensures { PricePacked rate over lent.old result lent.new }
{
    match keep(rate <= MOST_RATE.0, 3) {
        Err(refusal) => refused(refusal),
        Ok(()) => price_day(rate, over, lent),
    }
}
