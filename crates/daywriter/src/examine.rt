// The tests of a day, number by number over all tables.
ghost use Rattle.std.specs.Prelude.{◌≡◌};
ghost use Rattle.columns.specs.Column.{col};
ghost use Rattle.daywriter.specs.Acceptance.{singles_check, tables_check, rows_check, sound};

use dayformat::{Day, TABLES, count_of, numbers_of, tag_at};
use dayrows::{Tables, Test, first_failing_row};
use units::{MOST_GIGAJOULES, Refusal, clear, keep};

// 9, 3, 5 and 4. The rows are looked at where the counts are within their bounds.
#[tactic(auto, unfolding(crate::specs::Acceptance::sound, units::specs::Refusals::first_refusal))]
pub fn examine(day: Day, numbers: &[usize]) -> Result<(), Refusal>
    ensures { result ≡ sound day numbers.now }
{
    let counts = day.counts;
    keep(numbers.len() == numbers_of(counts), 9)?;
    examine_singles(day)?;
    examine_rows(Tables { counts, numbers })
}

// 3, 5 and 4 of the rows, of which there are then few.
#[tactic(auto, unfolding(crate::specs::Acceptance::rows_check, units::specs::Refusals::first_refusal))]
fn examine_rows(tables: Tables) -> Result<(), Refusal>
    ensures { result ≡ rows_check tables.entry.counts (col tables.entry.numbers.now) }
{
    examine_tables(Test::Bounds, 3, tables)?;
    examine_tables(Test::Key, 5, tables)?;
    examine_tables(Test::Mdq, 4, tables)
}

// 3: the head, then the counts.
#[tactic(auto, unfolding(crate::specs::Acceptance::singles_check, units::specs::Refusals::first_refusal))]
fn examine_singles(day: Day) -> Result<(), Refusal>
    ensures { result ≡ singles_check day }
{
    let head = day.head;
    let counts = day.counts;
    keep(head.free_flow.0 <= MOST_GIGAJOULES.0, 3)?;
    keep(head.compressor.0 <= MOST_GIGAJOULES.0, 3)?;
    counts.check()
}

// One test over the tables in file order.
fn examine_tables(test: Test, number: u8, tables: Tables) -> Result<(), Refusal>
    ensures { result ≡ tables_check test number tables.entry.counts (col tables.entry.numbers.now) }
{
    for place in 0..TABLES {
        let tag = tag_at(place);
        let row = first_failing_row(test, tables, tag);
        clear(count_of(tables.counts, tag) as usize, row as usize, number)?;
    }
    Ok(())
}
