// The hours of a day, as a case has them.
use cases::{past, put_answer, put_figures, put_list, wide, word};
use metered::bare_hours;
use readings::{HourReading, bare_volumes, gas_of, meter_day, reading_of};
use std::io::{Result, Write};

// The words of an hour: its kind, then two for the bits of either number.
const HOUR: usize = 5;

// The bits of infinity, and what 1 counts for in the bit of the sign.
const INFINITE: u64 = 0x7ff0_0000_0000_0000;

const SIGN: u64 = 0x8000_0000_0000_0000;

// Both sums, the energies and the volumes.
pub fn answer_meter_day<W: Write>(out: &mut W, given: &[u8]) -> Result<()> {
    let day = meter_day(readings_of(given));
    let gas = gas_of(day);
    put_answer(out, b"meter_day", day.map(|_| []))?;
    put_figures(out, &[gas.energy.0, gas.volume.0])?;
    put_list(out, &bare_hours(gas.energies))?;
    put_list(out, &bare_volumes(gas.volumes))
}

fn readings_of(given: &[u8]) -> [HourReading; 24] {
    std::array::from_fn(|hour| reading_in(past(given, HOUR * hour)))
}

fn reading_in(given: &[u8]) -> HourReading {
    reading_of(
        (word(given, 0) % 256) as u8,
        number_of(wide(given, 1)),
        number_of(wide(given, 3)),
    )
}

// The number that bits stand for. Of those beyond infinity's none is a number, and there is one such for all.
fn number_of(bits: u64) -> f64 {
    if INFINITE < bits % SIGN {
        return 0.0 / 0.0;
    }
    f64::from_bits(bits)
}
