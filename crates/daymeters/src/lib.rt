// A meter of a day's block, a shipper's metered day, and what is excused of it, opened. The hours stand beside the check.
#![tactic(auto)]

mod excused;
mod figures;
mod hours;

ghost use Rattle.std.specs.Prelude.{◌≡◌};
ghost use Rattle.daymeters.specs.Meter.{meter_check};

use dayformat::Tag;
use dayrows::Tables;
use dayvalues::check_row;
pub use excused::{check_excused, excused_hours, excused_row, excused_shipper, excused_yesterday};
pub use figures::{MeterFigures, meter_figures};
pub use hours::{meter_delivered, meter_hours, meter_yesterday};
use units::Refusal;

// The first test that a meter fails.
pub fn check_meter(tables: Tables, row: u32) -> Result<(), Refusal>
    ensures { result ≡ meter_check tables.entry.counts tables.entry.numbers.now row }
{
    check_row(tables, Tag::Meter, row)
}
