// The table of excused gas: a shipper's row says what is excused of each of its meter's hours.
ghost use Rattle.std.specs.Prelude.{◌≡◌};
ghost use Rattle.columns.specs.Column.{col};
ghost use Rattle.daymeters.specs.Excused.{excused_row_check, excused_shipper, excused_row, excused_yesterday, excused_hours};

use crate::hours::{today_of, yesterday_of};
use dayformat::Tag;
use dayrows::Tables;
use dayvalues::{check_row, number_at, row_beginning};
use units::{Megajoules, Refusal};

// Where a row's hours begin.
const EXCUSED: u32 = 1;

// The first test that a row fails.
pub fn check_excused(tables: Tables, row: u32) -> Result<(), Refusal>
    ensures { result ≡ excused_row_check tables.entry.counts tables.entry.numbers.now row }
{
    check_row(tables, Tag::Excused, row)
}

// The shipper of a row.
pub fn excused_shipper(tables: Tables, row: u32) -> Result<u16, Refusal>
    ensures { result ≡ excused_shipper tables.entry.counts tables.entry.numbers.now row }
{
    check_excused(tables, row)?;
    Ok(number_at(tables, Tag::Excused, row, 0) as u16)
}

// The first row of a shipper, or the number of rows where it has none.
pub fn excused_row(tables: Tables, shipper: u16) -> u32
    ensures { result ≡ excused_row tables.entry.counts (col tables.entry.numbers.now) shipper }
{
    row_beginning(tables, Tag::Excused, shipper as u32)
}

// What is excused of yesterday's 11 delivered hours, all zero where `check_excused` refuses.
pub fn excused_yesterday(tables: Tables, row: u32) -> [Megajoules; 11]
    ensures { result ≡ excused_yesterday tables.entry.counts tables.entry.numbers.now row }
{
    yesterday_of(tables, Tag::Excused, row, EXCUSED)
}

// What is excused of both sides' 24 hours, delivered first, all zero where `check_excused` refuses.
pub fn excused_hours(tables: Tables, row: u32) -> [[Megajoules; 24]; 2]
    ensures { result ≡ excused_hours tables.entry.counts tables.entry.numbers.now row }
{
    today_of(tables, Tag::Excused, row, EXCUSED)
}
