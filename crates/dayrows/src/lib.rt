// 01's tests of a field, opened: 1 and 2 of its bytes, and 3, 5 and 4 of its row among a day's numbers. Numbers past the end of the list
// count as zero.
#![tactic(auto)]

mod bounds;
mod caps;
mod fault;
mod field;
mod keys;
mod mdqs;
mod row;
mod tables;

ghost use Rattle.std.specs.Prelude.{◌≡◌};
ghost use Rattle.columns.specs.Column.{col};
ghost use Rattle.dayrows.specs.Test.{of_source, names_known, passes, fault, first_failing};

use crate::caps::is_capped;
use crate::keys::{is_named, rises};
use crate::mdqs::is_starved;
pub use bounds::{is_bounded, is_within, number_of};
use dayformat::{Tag, count_of, form_of};
pub use fault::Fault;
pub use field::breaks;
pub use mdqs::is_idle;
pub use row::{Row, row_of};
pub use tables::Tables;

// Where rows stand: in a day's file or block, or in a list of the entries of one side. No closure: `passes` and `fault` speak of it. A side
// is compared with a row's number.
#[derive(Clone, Copy)]
pub enum Source {
    File,
    Side(usize),
}

// The tests that refuse by 3, 5 and 4. No closure: `passes`, `first_failing` and the writer's `tables_check` speak of them.
#[derive(Clone, Copy)]
pub enum Test {
    Bounds,
    Key,
    Mdq,
}

// The first of 3, 5 and 4 that a row is refused by. Which row it is stays a number: it may be one too many, and its key has one before.
#[tactic(auto, unfolding(crate::specs::Test::fault), using(crate::proofs::Faults::mdq_any))]
pub fn row_fault(source: Source, tables: Tables, tag: Tag, row: u32) -> Result<(), Fault>
    ensures { result ≡ fault source tables.entry.counts (col tables.entry.numbers.now) tag row }
{
    if !keeps_bounds(source, tables, tag, row) {
        return Err(Fault::Beyond);
    }
    if !keeps_key(source, tables, tag, row) {
        return Err(Fault::Key);
    }
    if !keeps_mdq(tables, tag, row) {
        return Err(Fault::Mdq);
    }
    Ok(())
}

// 3: a row too many, a number beyond its bound or its cap, an entry of the other side.
fn keeps_bounds(source: Source, tables: Tables, tag: Tag, row: u32) -> bool
    ensures { result ≡ passes Test.Bounds source tables.entry.counts (col tables.entry.numbers.now) tag row }
{
    if form_of(tag).most <= row {
        return false;
    }
    let row = row_of(tables, tag, row);
    is_bounded(row) && is_of_source(source, row)
}

fn is_of_source(source: Source, row: Row) -> bool
    ensures { result ≡ of_source source row.entry.tables.counts (col row.entry.tables.numbers.now) row.entry.tag row.entry.at }
{
    match source {
        Source::File => is_capped(row),
        Source::Side(side) => number_of(row.tables.numbers, row.at) == side,
    }
}

// 5: a key that does not rise, or names something not listed.
fn keeps_key(source: Source, tables: Tables, tag: Tag, row: u32) -> bool
    ensures { result ≡ passes Test.Key source tables.entry.counts (col tables.entry.numbers.now) tag row }
{
    rises(tables, tag, row) && names_are_known(source, row_of(tables, tag, row))
}

fn names_are_known(source: Source, row: Row) -> bool
    ensures { result ≡ names_known source row.entry.tables.counts (col row.entry.tables.numbers.now) row.entry.tag row.entry.at }
{
    match source {
        Source::File => is_named(row),
        Source::Side(_) => true,
    }
}

// 4: a schedule without its MDQ.
fn keeps_mdq(tables: Tables, tag: Tag, row: u32) -> bool
    ensures { result ≡ passes Test.Mdq Source.File tables.entry.counts (col tables.entry.numbers.now) tag row }
{
    !is_starved(row_of(tables, tag, row))
}

// Whether a row of a day passes a test.
fn row_passes(test: Test, tables: Tables, tag: Tag, row: u32) -> bool
    ensures { result ≡ passes test Source.File tables.entry.counts (col tables.entry.numbers.now) tag row }
{
    match test {
        Test::Bounds => keeps_bounds(Source::File, tables, tag, row),
        Test::Key => keeps_key(Source::File, tables, tag, row),
        Test::Mdq => keeps_mdq(tables, tag, row),
    }
}

// The lowest row of a day's table that fails a test, or the number of rows.
pub fn first_failing_row(test: Test, tables: Tables, tag: Tag) -> u32
    ensures { result ≡ first_failing test tables.entry.counts (col tables.entry.numbers.now) tag }
{
    let rows = count_of(tables.counts, tag);
    (0..rows)
        .find(|row| !row_passes(test, tables, tag, *row))
        .unwrap_or(rows)
}
