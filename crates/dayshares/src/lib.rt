// A day's shares, opened: firm in three rounds, then auction, then lower tier.
#![tactic(auto)]

mod accepted;
mod class;
mod firm;
mod lists;
mod round;

ghost use Rattle.std.specs.Prelude.{◌≡◌};
ghost use Rattle.daytable.specs.Table.{contents};
ghost use Rattle.dayshares.specs.Firm.{free_flow_mdq};
ghost use Rattle.dayshares.specs.Answer.{SharesAnswered};

use daytable::DayTable;
use units::{Gigajoules, Refusal};

// The levels of a day's five rounds; 0 for a round not held.
#[derive(Clone, Copy)]
pub struct Levels {
    pub one: u64,
    pub two: u64,
    pub three: u64,
    pub auction: u64,
    pub lower_tier: u64,
}

// A day's levels, what each class is given together, and LEFT.
#[derive(Clone, Copy)]
pub struct Shares {
    pub levels: Levels,
    pub firm: Gigajoules,
    pub auction: Gigajoules,
    pub lower_tier: Gigajoules,
    pub left: Gigajoules,
}

// A row's Free Flow MDQ: three quarters of its firm MDQ rounded down.
pub fn free_flow_mdq(mdq: Gigajoules) -> Gigajoules
    ensures { result ≡ free_flow_mdq mdq }
{
    Gigajoules((3 * (mdq.0 as u64) / 4) as u32)
}

// 01, "A day's shares": each class's shares go to the front of its lent list; a refusal leaves all three as they were.
pub fn share_day(
    table: &DayTable,
    firm: &mut [u32],
    auction: &mut [u32],
    lower_tier: &mut [u32],
) -> Result<Shares, Refusal>
    ensures { SharesAnswered (contents table.now)
        firm.old auction.old lower_tier.old
        result
        firm.new auction.new lower_tier.new }
{
    table.examine(firm.len(), auction.len(), lower_tier.len())?;
    Ok(accepted::share_accepted(table, firm, auction, lower_tier))
}
