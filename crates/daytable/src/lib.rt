// A day's table and its tests, opened.
#![tactic(auto)]

ghost use Rattle.std.specs.Prelude.{◌≡◌};
ghost use Rattle.daytable.specs.Table.{contents};
ghost use Rattle.daytable.specs.Acceptance.{bounds_check, idle, first_idle, table_check};

use units::{
    Gigajoules, MOST_GIGAJOULES, MOST_ROWS, Refusal, clear, gigajoules_at, gigajoules_within, keep,
};

// What a day is shared from: both capacities, and the lists in the order of the day file's tag 2.
#[derive(Clone, Copy)]
pub struct DayTable<'a> {
    pub free_flow: Gigajoules,
    pub compressor: Gigajoules,
    pub firm_mdq: &'a [u32],
    pub auction_mdq: &'a [u32],
    pub firm_schedule: &'a [u32],
    pub auction_schedule: &'a [u32],
    pub lower_tier_schedule: &'a [u32],
}

impl DayTable<'_> {
    // The first of 01's tests that the table fails, with room for so many shares of each class.
    #[tactic(auto, unfolding(crate::specs::Acceptance::table_check, crate::specs::Acceptance::lengths_check, units::specs::Refusals::first_refusal))]
    pub fn examine(
        &self,
        firm_room: usize,
        auction_room: usize,
        lower_tier_room: usize,
    ) -> Result<(), Refusal>
        ensures { result ≡ table_check (contents self.now) firm_room auction_room lower_tier_room }
    {
        let rows = self.firm_mdq.len();
        keep(rows == self.auction_mdq.len(), 9)?;
        keep(rows == self.firm_schedule.len(), 9)?;
        keep(rows == self.auction_schedule.len(), 9)?;
        keep(rows == self.lower_tier_schedule.len(), 9)?;
        self.examine_figures()?;
        clear(rows, idle_row(self.firm_mdq, self.firm_schedule), 4)?;
        clear(rows, idle_row(self.auction_mdq, self.auction_schedule), 4)?;
        keep(rows <= firm_room, 7)?;
        keep(rows <= auction_room, 7)?;
        keep(rows <= lower_tier_room, 7)
    }

    // 3: the capacities, the count, then each list.
    #[tactic(auto, unfolding(crate::specs::Acceptance::bounds_check, units::specs::Refusals::first_refusal))]
    fn examine_figures(&self) -> Result<(), Refusal>
        ensures { result ≡ bounds_check (contents self.now) }
    {
        keep(self.free_flow.0 <= MOST_GIGAJOULES.0, 3)?;
        keep(self.compressor.0 <= MOST_GIGAJOULES.0, 3)?;
        keep(self.firm_mdq.len() <= MOST_ROWS, 3)?;
        gigajoules_within(self.firm_mdq, MOST_GIGAJOULES)?;
        gigajoules_within(self.auction_mdq, MOST_GIGAJOULES)?;
        gigajoules_within(self.firm_schedule, MOST_GIGAJOULES)?;
        gigajoules_within(self.auction_schedule, MOST_GIGAJOULES)?;
        gigajoules_within(self.lower_tier_schedule, MOST_GIGAJOULES)
    }
}

// The lowest row with a schedule above zero and that MDQ zero, or the number of rows.
fn idle_row(mdqs: &[u32], schedules: &[u32]) -> usize
    ensures { result ≡ first_idle mdqs.now schedules.now }
{
    for (row, mdq) in mdqs.iter().enumerate() {
        if is_idle(*mdq, gigajoules_at(schedules, row)) {
            return row;
        }
    }
    mdqs.len()
}

fn is_idle(mdq: u32, schedule: u32) -> bool
    ensures { result ≡ idle mdq schedule }
{
    mdq == 0 && 0 < schedule
}
