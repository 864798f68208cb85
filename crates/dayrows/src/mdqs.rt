// 4: a firm or auction schedule above zero with that MDQ zero.
ghost use Rattle.std.specs.Prelude.{◌≡◌};
ghost use Rattle.columns.specs.Column.{col};
ghost use Rattle.daytable.specs.Acceptance.{idle};
ghost use Rattle.dayrows.specs.Test.{starved};

use crate::bounds::number_of;
use crate::row::Row;
use dayformat::mdqs_of;

// A schedule above zero, and its MDQ zero. daytable has the same of u32s; a function of both types were longer than the line.
pub fn is_idle(mdq: usize, schedule: usize) -> bool
    ensures { result ≡ idle mdq schedule }
{
    mdq == 0 && 0 < schedule
}

// Whether a row has a schedule without its MDQ.
pub fn is_starved(row: Row) -> bool
    ensures { result ≡ starved (col row.entry.tables.numbers.now) row.entry.tag row.entry.at }
{
    mdqs_of(row.tag).iter().any(|pair| {
        let mdq = number_of(row.tables.numbers, row.at + pair.mdq);
        is_idle(mdq, number_of(row.tables.numbers, row.at + pair.schedule))
    })
}
