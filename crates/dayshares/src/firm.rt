// Firm: three rounds over the split of the firm MDQ.
ghost use Rattle.columns.specs.Column.{col};
ghost use Rattle.dayshares.specs.Firm.{firm_of, three_quarters};
ghost use Rattle.dayshares.specs.Private.{FirmReady, Split, FirmHeld};

use crate::lists::{free_flow_list, rest_list};
use crate::round::{hold, hold_next};
use units::MOST_ROWS;

// The levels of the three firm rounds, and what the rows are given together.
#[derive(Clone, Copy)]
pub struct FirmGiven {
    pub one: u64,
    pub two: u64,
    pub three: u64,
    pub total: u32,
}

// The firm rounds with the Free Flow MDQ at three quarters.
pub fn share_firm(
    free_flow: u32,
    compressor: u32,
    mdq: &[u32],
    schedule: &[u32],
    given: &mut [u32],
) -> FirmGiven
    requires { FirmReady free_flow compressor mdq.now schedule.now given.old }
    ensures { FirmHeld
        (firm_of free_flow compressor (λ i. three_quarters (col mdq.now i)) mdq.now schedule.now)
        given.old result given.new }
{
    let rows = mdq.len();
    let mut free_flow_mdq = [0u32; MOST_ROWS];
    free_flow_list(mdq, &mut free_flow_mdq);
    three_rounds(
        free_flow,
        compressor,
        &free_flow_mdq[..rows],
        mdq,
        schedule,
        given,
    )
}

// The firm rounds with any Free Flow MDQ.
fn three_rounds(
    free_flow: u32,
    compressor: u32,
    free_flow_mdq: &[u32],
    mdq: &[u32],
    schedule: &[u32],
    given: &mut [u32],
) -> FirmGiven
    requires { FirmReady free_flow compressor mdq.now schedule.now given.old × Split free_flow_mdq.now mdq.now }
    ensures { FirmHeld
        (firm_of free_flow compressor (col free_flow_mdq.now) mdq.now schedule.now)
        given.old result given.new }
{
    let rows = mdq.len();
    let mut compressor_mdq = [0u32; MOST_ROWS];
    rest_list(mdq, free_flow_mdq, &mut compressor_mdq);
    let one = hold(free_flow, free_flow_mdq, schedule, given);
    let two = hold_next(compressor, &compressor_mdq[..rows], schedule, given);
    let spent = one.total.0 + two.total.0;
    let left = free_flow + compressor - spent;
    let three = hold_next(left, mdq, schedule, given);
    let total = spent + three.total.0;
    FirmGiven {
        one: one.level,
        two: two.level,
        three: three.level,
        total,
    }
}
