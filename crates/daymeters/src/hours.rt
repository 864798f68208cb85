// The hours of a row, one after another: yesterday's 11 delivered, today's 24 delivered and 24 received. A meter's, and those excused.
ghost use Rattle.std.specs.Prelude.{◌≡◌, ◌+◌, ◌≤◌, length};
ghost use Rattle.columns.specs.Column.{col};
ghost use Rattle.dayvalues.specs.Row.{number_at};
ghost use Rattle.daymeters.specs.Hours.{hours_from, megajoules, yesterday_of, today_of};
ghost use Rattle.daymeters.specs.Hours.{meter_yesterday, meter_hours, with_delivered, Delivered};

use crate::check_meter;
use dayformat::Tag;
use dayrows::Tables;
use dayvalues::{check_row, number_at};
use units::{Megajoules, Refusal, keep};

// Where a meter's hours begin.
pub const METERED: u32 = 3;

// The megajoules at a place. A row stays a number beside its tables: it is untested, and a `Row` is one that begins near.
pub fn megajoules_at(tables: Tables, tag: Tag, row: u32, place: u32) -> Megajoules
    ensures { result.0 ≡ number_at tables.entry.counts (col tables.entry.numbers.now) tag row place }
{
    Megajoules(number_at(tables, tag, row, place) as u64)
}

// So many hours from a place on. By `array::from_fn` it was tried, and a fifth slower.
fn hours_from<const N: usize>(tables: Tables, tag: Tag, row: u32, at: u32) -> [Megajoules; N]
    requires { at + N ≤ 68 }
    ensures { result ≡ megajoules (hours_from tables.entry.counts (col tables.entry.numbers.now) tag row at N) }
{
    let mut hours = [Megajoules(0); N];
    for hour in 0..N {
        hours[hour] = megajoules_at(tables, tag, row, at + hour as u32);
    }
    hours
}

// Yesterday's, of a row whose hours begin at a place; all zero where its tests refuse.
pub fn yesterday_of(tables: Tables, tag: Tag, row: u32, at: u32) -> [Megajoules; 11]
    requires { at + 59 ≤ 68 }
    ensures { result ≡ yesterday_of tables.entry.counts tables.entry.numbers.now tag row at }
{
    match check_row(tables, tag, row) {
        Err(_) => [Megajoules(0); 11],
        Ok(()) => hours_from(tables, tag, row, at),
    }
}

// Today's of both sides, delivered first.
pub fn today_of(tables: Tables, tag: Tag, row: u32, at: u32) -> [[Megajoules; 24]; 2]
    requires { at + 59 ≤ 68 }
    ensures { result ≡ today_of tables.entry.counts tables.entry.numbers.now tag row at }
{
    match check_row(tables, tag, row) {
        Err(_) => [[Megajoules(0); 24]; 2],
        Ok(()) => {
            let delivered = hours_from(tables, tag, row, at + 11);
            let received = hours_from(tables, tag, row, at + 11 + 24);
            [delivered, received]
        }
    }
}

// Yesterday's 11 delivered hours, all zero where `check_meter` refuses.
pub fn meter_yesterday(tables: Tables, row: u32) -> [Megajoules; 11]
    ensures { result ≡ meter_yesterday tables.entry.counts tables.entry.numbers.now row }
{
    yesterday_of(tables, Tag::Meter, row, METERED)
}

// Both sides' 24 hours, delivered first, all zero where `check_meter` refuses.
pub fn meter_hours(tables: Tables, row: u32) -> [[Megajoules; 24]; 2]
    ensures { result ≡ meter_hours tables.entry.counts tables.entry.numbers.now row }
{
    today_of(tables, Tag::Meter, row, METERED)
}

// The 35 delivered hours of both days, which stand one after another. The hour is what is asked for, so the loop is over hours.
fn fill_delivered(tables: Tables, row: u32, out: &mut [u64])
    requires { 35 ≤ length out.old }
    ensures { out.new ≡ with_delivered tables.entry.counts (col tables.entry.numbers.now) row out.old }
{
    for hour in 0..35u32 {
        out[hour as usize] = megajoules_at(tables, Tag::Meter, row, METERED + hour).0;
    }
}

// Yesterday's 11 and today's 24 delivered hours go to the front of `out`; a refusal leaves it as it was.
#[tactic(auto, unfolding(crate::specs::Hours::delivered_check, units::specs::Refusals::first_refusal))]
pub fn meter_delivered(tables: Tables, row: u32, out: &mut [u64]) -> Result<(), Refusal>
    ensures { Delivered tables.entry.counts tables.entry.numbers.now row out.old result out.new }
{
    check_meter(tables, row)?;
    keep(35 <= out.len(), 7)?;
    fill_delivered(tables, row, out);
    Ok(())
}
