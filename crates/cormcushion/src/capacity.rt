// Capacity shared out: one round, and a day.
ghost use Rattle.std.specs.Prelude.{◌≡◌};
ghost use Rattle.cormcushion.specs.Answers.{level_figures, with_levels};
ghost use Rattle.cormcushion.specs.Lent.{RoundPacked, SharesPacked};

use crate::answers::{of_round, of_shares};
use dayshares::{Levels, Shares, share_day};
use daytable::DayTable;
use rounds::share_round;
use units::{Gigajoules, Refusal};

// One sharing round: its level, with the shares at the front of the lent list.
pub fn cormcushion_share_round(
    capacity: u32,
    weights: &[u32],
    needs: &[u32],
    shares: &mut [u32],
) -> u64
    ensures { RoundPacked capacity weights.now needs.now shares.old result shares.new }
{
    of_round(share_round(Gigajoules(capacity), weights, needs, shares))
}

// A day's shares: LEFT, with each class's shares at the front of its lent list, and the levels of the five rounds in `levels`.
// The table's figures come one by one: the C interface.
pub fn cormcushion_share_day(
    free_flow: u32,
    compressor: u32,
    firm_mdq: &[u32],
    auction_mdq: &[u32],
    firm_schedule: &[u32],
    auction_schedule: &[u32],
    lower_tier_schedule: &[u32],
    firm: &mut [u32],
    auction: &mut [u32],
    lower_tier: &mut [u32],
    levels: &mut [u64; 5],
) -> u64
    ensures { SharesPacked
        (record {
          free_flow = free_flow;
          compressor = compressor;
          firm_mdq = firm_mdq.now;
          auction_mdq = auction_mdq.now;
          firm_schedule = firm_schedule.now;
          auction_schedule = auction_schedule.now;
          lower_tier_schedule = lower_tier_schedule.now;
        })
        firm.old auction.old lower_tier.old levels.old
        result
        firm.new auction.new lower_tier.new levels.new }
{
    let table = DayTable {
        free_flow: Gigajoules(free_flow),
        compressor: Gigajoules(compressor),
        firm_mdq,
        auction_mdq,
        firm_schedule,
        auction_schedule,
        lower_tier_schedule,
    };
    let day = share_day(&table, firm, auction, lower_tier);
    put_levels(day, levels);
    of_shares(day)
}

// Rounds one, two and three, auction, lower tier.
fn figures_of(levels: Levels) -> [u64; 5]
    ensures { result ≡ level_figures levels }
{
    [
        levels.one,
        levels.two,
        levels.three,
        levels.auction,
        levels.lower_tier,
    ]
}

// A refusal leaves them as they were.
fn put_levels(day: Result<Shares, Refusal>, lent: &mut [u64; 5])
    ensures { lent.new ≡ with_levels day lent.old }
{
    if let Ok(shares) = day {
        *lent = figures_of(shares.levels);
    }
}
