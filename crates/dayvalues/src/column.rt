// A column of gigajoules of the shipper table.
ghost use Rattle.std.specs.Prelude.{◌≡◌, ◌≤◌, ◌<◌};
ghost use Rattle.columns.specs.Column.{col};
ghost use Rattle.dayvalues.specs.Column.{place_of, first_beyond, column_check, with_column, ColumnAnswered};
ghost use Rattle.dayvalues.specs.Private.{Fillable};

use crate::row::{is_beyond, number_at};
use dayformat::{Tag, numbers_of};
use dayrows::Tables;
use units::{Refusal, clear, keep};

// In tag 2's order. No closure: `place_of` and `ColumnAnswered` speak of a column by its name.
#[derive(Clone, Copy)]
pub enum ShipperColumn {
    FirmMdq,
    AuctionMdq,
    FirmSchedule,
    AuctionSchedule,
    LowerTierSchedule,
}

// Where a row has it.
fn place_of(which: ShipperColumn) -> u32
    ensures { (result ≡ place_of which) × (1 ≤ result) × (result < 6) }
{
    match which {
        ShipperColumn::FirmMdq => 1,
        ShipperColumn::AuctionMdq => 2,
        ShipperColumn::FirmSchedule => 3,
        ShipperColumn::AuctionSchedule => 4,
        ShipperColumn::LowerTierSchedule => 5,
    }
}

// The lowest row whose number at a place is beyond its bounds, or the number of rows.
fn first_beyond(tables: Tables, place: u32) -> u32
    ensures { result ≡ first_beyond tables.entry.counts (col tables.entry.numbers.now) place }
{
    let rows = tables.counts.shippers;
    (0..rows)
        .find(|row| is_beyond(tables, Tag::Shipper, *row, place))
        .unwrap_or(rows)
}

// The first test that a column fails, with room for so many rows. The rows are looked at where there are few.
#[tactic(auto, unfolding(crate::specs::Column::column_check, units::specs::Refusals::first_refusal))]
fn examine_column(tables: Tables, place: u32, room: usize) -> Result<(), Refusal>
    ensures { result ≡ column_check tables.entry.counts tables.entry.numbers.now place room }
{
    let Tables { counts, numbers } = tables;
    let rows = counts.shippers as usize;
    keep(numbers.len() == numbers_of(counts), 9)?;
    counts.check()?;
    clear(rows, first_beyond(tables, place) as usize, 3)?;
    keep(rows <= room, 7)
}

// The first test that a column fails, with room for so many rows.
pub fn check_column(tables: Tables, which: ShipperColumn, room: usize) -> Result<(), Refusal>
    ensures { result ≡ column_check tables.entry.counts tables.entry.numbers.now (place_of which) room }
{
    examine_column(tables, place_of(which), room)
}

// Each row's number at a place to the front of a list.
fn fill_column(tables: Tables, place: u32, out: &mut [u32])
    requires { Fillable tables.counts (col tables.numbers.now) place out.old }
    ensures { out.new ≡ with_column tables.entry.counts (col tables.entry.numbers.now) place out.old }
{
    let rows = tables.counts.shippers;
    // The row is what is asked for, so the loop is over rows.
    for row in 0..rows {
        out[row as usize] = number_at(tables, Tag::Shipper, row, place) as u32;
    }
}

// A column's gigajoules go to the front of `out`; a refusal leaves it as it was.
pub fn shipper_column(
    tables: Tables,
    which: ShipperColumn,
    out: &mut [u32],
) -> Result<usize, Refusal>
    ensures { ColumnAnswered tables.entry.counts tables.entry.numbers.now which out.old result out.new }
{
    let place = place_of(which);
    examine_column(tables, place, out.len())?;
    fill_column(tables, place, out);
    Ok(tables.counts.shippers as usize)
}
