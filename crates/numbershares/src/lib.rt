// A day's shares from its numbers, opened.
#![tactic(auto)]

ghost use Rattle.std.specs.Prelude.{◌≡◌, replicate, Ok};
ghost use Rattle.columns.specs.Column.{col};
ghost use Rattle.units.specs.Bound.{most_rows};
ghost use Rattle.dayshares.specs.Answer.{SharesAnswered};
ghost use Rattle.dayvalues.specs.Column.{place_of, column_check, with_column};
ghost use Rattle.numbershares.specs.DayTable.{table_of};
ghost use Rattle.numbershares.specs.Answer.{NumbersAnswered};
ghost use Rattle.numbershares.specs.Private.{columns_check, early_check};

use dayformat::{Day, numbers_of};
use dayrows::Tables;
use dayshares::{Shares, share_day};
use daytable::DayTable;
use dayvalues::{ShipperColumn, check_column, shipper_column};
use units::{MOST_GIGAJOULES, MOST_ROWS, Refusal, keep};

// The first test that one of the five columns fails, in tag 2's order.
#[tactic(auto, unfolding(crate::specs::Private::columns_check, units::specs::Refusals::first_refusal))]
fn check_columns(tables: Tables) -> Result<(), Refusal>
    ensures { result ≡ columns_check tables.entry.counts tables.entry.numbers.now }
{
    check_column(tables, ShipperColumn::FirmMdq, MOST_ROWS)?;
    check_column(tables, ShipperColumn::AuctionMdq, MOST_ROWS)?;
    check_column(tables, ShipperColumn::FirmSchedule, MOST_ROWS)?;
    check_column(tables, ShipperColumn::AuctionSchedule, MOST_ROWS)?;
    check_column(tables, ShipperColumn::LowerTierSchedule, MOST_ROWS)
}

// 9 and 3: the counts and the capacities, which are single figures, come before the rows of any column.
#[tactic(auto, unfolding(crate::specs::Private::early_check, units::specs::Refusals::first_refusal))]
fn check_figures(day: Day, numbers: &[usize]) -> Result<(), Refusal>
    ensures { result ≡ early_check day numbers.now }
{
    let head = day.head;
    let counts = day.counts;
    keep(numbers.len() == numbers_of(counts), 9)?;
    counts.check()?;
    keep(head.free_flow.0 <= MOST_GIGAJOULES.0, 3)?;
    keep(head.compressor.0 <= MOST_GIGAJOULES.0, 3)?;
    check_columns(Tables { counts, numbers })
}

// A column of gigajoules, zeros past its rows.
fn column_of(tables: Tables, which: ShipperColumn) -> [u32; MOST_ROWS]
    requires { column_check tables.counts tables.numbers.now (place_of which) most_rows ≡ Ok tt }
    ensures { result ≡ with_column tables.entry.counts (col tables.entry.numbers.now) (place_of which) (replicate most_rows 0) }
{
    let mut column = [0u32; MOST_ROWS];
    shipper_column(tables, which, &mut column).unwrap();
    column
}

// Shares the day's table out.
fn share_columns(
    day: Day,
    numbers: &[usize],
    firm: &mut [u32],
    auction: &mut [u32],
    lower_tier: &mut [u32],
) -> Result<Shares, Refusal>
    requires { early_check day numbers.now ≡ Ok tt }
    ensures { SharesAnswered (table_of day (col numbers.now))
        firm.old auction.old lower_tier.old
        result
        firm.new auction.new lower_tier.new }
{
    let head = day.head;
    let counts = day.counts;
    let tables = Tables { counts, numbers };
    let rows = counts.shippers as usize;
    let firm_mdq = column_of(tables, ShipperColumn::FirmMdq);
    let auction_mdq = column_of(tables, ShipperColumn::AuctionMdq);
    let firm_schedule = column_of(tables, ShipperColumn::FirmSchedule);
    let auction_schedule = column_of(tables, ShipperColumn::AuctionSchedule);
    let lower_tier_schedule = column_of(tables, ShipperColumn::LowerTierSchedule);
    let table = DayTable {
        free_flow: head.free_flow,
        compressor: head.compressor,
        firm_mdq: &firm_mdq[..rows],
        auction_mdq: &auction_mdq[..rows],
        firm_schedule: &firm_schedule[..rows],
        auction_schedule: &auction_schedule[..rows],
        lower_tier_schedule: &lower_tier_schedule[..rows],
    };
    share_day(&table, firm, auction, lower_tier)
}

// Each class's shares go to the front of its list; a refusal leaves all three as they were.
pub fn share_numbers(
    day: Day,
    numbers: &[usize],
    firm: &mut [u32],
    auction: &mut [u32],
    lower_tier: &mut [u32],
) -> Result<Shares, Refusal>
    ensures { NumbersAnswered day numbers.now
        firm.old auction.old lower_tier.old
        result
        firm.new auction.new lower_tier.new }
{
    check_figures(day, numbers)?;
    share_columns(day, numbers, firm, auction, lower_tier)
}
