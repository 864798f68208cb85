// One shipper's metered day: its overruns and their charge.
ghost use Rattle.cormcushion.specs.Meter.{shipper_day, excused_of};
ghost use Rattle.cormcushion.specs.Meter.{ChargePacked, ExcusedChargePacked};

// The charge in cents for the greatest of a day's four overruns, with the four and the greatest in `lent`.
#[unsafe(no_mangle)]
pub extern "C" fn cormcushion_overruns(
    rate: u32,
    p: u32,
    m: u32,
    yesterday: &[u64; 11],
    delivered: &[u64; 24],
    received: &[u64; 24],
    schedules: &[u32; 4],
    metered: &[u64; 2],
    lent: &mut [u64; 5],
) -> u64
    ensures { ChargePacked rate
        (shipper_day p m yesterday.now delivered.now received.now
        schedules.now metered.now)
        lent.old result lent.new }
{
    cormcushion::cormcushion_overruns(
        rate, p, m, yesterday, delivered, received, schedules, metered, lent,
    )
}

// The same with hours excused (cl. 5.4): yesterday's, delivered, received.
#[unsafe(no_mangle)]
pub extern "C" fn cormcushion_overruns_excused(
    rate: u32,
    p: u32,
    m: u32,
    yesterday: &[u64; 11],
    delivered: &[u64; 24],
    received: &[u64; 24],
    schedules: &[u32; 4],
    metered: &[u64; 2],
    excused_yesterday: &[u64; 11],
    excused_delivered: &[u64; 24],
    excused_received: &[u64; 24],
    lent: &mut [u64; 5],
) -> u64
    ensures { ExcusedChargePacked rate
        (shipper_day p m yesterday.now delivered.now received.now
        schedules.now metered.now)
        (excused_of excused_yesterday.now excused_delivered.now excused_received.now)
        lent.old result lent.new }
{
    cormcushion::cormcushion_overruns_excused(
        rate,
        p,
        m,
        yesterday,
        delivered,
        received,
        schedules,
        metered,
        excused_yesterday,
        excused_delivered,
        excused_received,
        lent,
    )
}
