// A row of the shipper table.
ghost use Rattle.std.specs.Prelude.{◌≡◌};
ghost use Rattle.dayvalues.specs.Shippers.{shipper_answer};

use crate::row::{check_row, number_at};
use dayformat::Tag;
use dayrows::Tables;
use units::Refusal;

// The shipper of a row.
pub fn shipper_at(tables: Tables, row: u32) -> Result<u16, Refusal>
    ensures { result ≡ shipper_answer tables.entry.counts tables.entry.numbers.now row }
{
    check_row(tables, Tag::Shipper, row)?;
    Ok(number_at(tables, Tag::Shipper, row, 0) as u16)
}
