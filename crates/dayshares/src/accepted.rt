ghost use Rattle.std.specs.Prelude.{length};
ghost use Rattle.daytable.specs.Table.{contents};
ghost use Rattle.dayshares.specs.Private.{DayReady, DayShared};

use crate::class::{is_full, offer};
use crate::firm::share_firm;
use crate::{Levels, Shares};
use daytable::DayTable;
use units::Gigajoules;

// A day that the tests accept: firm, then auction from what is left, then lower tier from the rest.
pub fn share_accepted(
    table: &DayTable,
    firm: &mut [u32],
    auction: &mut [u32],
    lower_tier: &mut [u32],
) -> Shares
    requires { DayReady (contents table.now) (length firm.old) (length auction.old) (length lower_tier.old) }
    ensures { DayShared (contents table.now)
        firm.old auction.old lower_tier.old
        result
        firm.new auction.new lower_tier.new }
{
    let firm_given = share_firm(
        table.free_flow.0,
        table.compressor.0,
        table.firm_mdq,
        table.firm_schedule,
        firm,
    );
    let offered = table.free_flow.0 + table.compressor.0 - firm_given.total;
    let auction_held = is_full(table.firm_schedule, firm);
    let auction_given = offer(
        auction_held,
        offered,
        table.auction_mdq,
        table.auction_schedule,
        auction,
    );
    let rest = offered - auction_given.total.0;
    let auction_full = is_full(table.auction_schedule, auction);
    let lower_tier_held = auction_held && auction_full;
    let lower_tier_given = offer(
        lower_tier_held,
        rest,
        table.lower_tier_schedule,
        table.lower_tier_schedule,
        lower_tier,
    );
    let left = rest - lower_tier_given.total.0;
    let levels = Levels {
        one: firm_given.one,
        two: firm_given.two,
        three: firm_given.three,
        auction: auction_given.level,
        lower_tier: lower_tier_given.level,
    };
    Shares {
        levels,
        firm: Gigajoules(firm_given.total),
        auction: Gigajoules(auction_given.total.0),
        lower_tier: Gigajoules(lower_tier_given.total.0),
        left: Gigajoules(left),
    }
}
