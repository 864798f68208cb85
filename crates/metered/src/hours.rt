ghost use Rattle.std.specs.Prelude.{◌≡◌};
ghost use Rattle.metered.specs.Hours.{bare_hours, both_days, hours_check};

use units::{MOST_HOUR, Megajoules, Refusal, megajoules_within};

// The bare numbers of so many hours. By `map` it was tried, and a day's overruns took more than twice as long.
fn numbers_of<const N: usize>(row: [Megajoules; N]) -> [u64; N]
    ensures { result ≡ bare_hours row.entry }
{
    let mut numbers = [0u64; N];
    for hour in 0..N {
        numbers[hour] = row[hour].0;
    }
    numbers
}

// The bare numbers of a row of 24 hours.
pub fn bare_hours(row: [Megajoules; 24]) -> [u64; 24]
    ensures { result ≡ bare_hours row }
{
    numbers_of(row)
}

// Yesterday's 11 hours followed by today's 24.
pub fn both_days(yesterday: [Megajoules; 11], today: [Megajoules; 24]) -> [u64; 35]
    ensures { result ≡ both_days yesterday today }
{
    // No heap: both days in an array.
    let mut hours = [0u64; 35];
    hours[..11].copy_from_slice(&numbers_of(yesterday));
    hours[11..].copy_from_slice(&numbers_of(today));
    hours
}

// Whether both sides' hours are within their bound, delivered first.
#[tactic(auto, unfolding(crate::specs::Hours::hours_check, units::specs::Refusals::first_refusal))]
pub fn examine_hours(hours: [[Megajoules; 24]; 2]) -> Result<(), Refusal>
    ensures { result ≡ hours_check hours }
{
    let delivered = bare_hours(hours[0]);
    let received = bare_hours(hours[1]);
    megajoules_within(&delivered, MOST_HOUR)?;
    megajoules_within(&received, MOST_HOUR)
}
