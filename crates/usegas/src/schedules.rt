// The schedules by which net gas is shared, with the Foundation Shipper's place among them.
ghost use Rattle.std.specs.Prelude.{◌≡◌, ◌-◌, ◌<◌, ◌==◌, length};
ghost use Rattle.usegas.specs.Share.{weights, total, unscheduled};
ghost use Rattle.usegas.specs.Private.{Rows};

// The shippers' schedules, and which of them is the Foundation Shipper's.
#[derive(Clone, Copy)]
pub struct Schedules<'a> {
    pub foundation: usize,
    pub rows: &'a [u32],
}

impl Schedules<'_> {
    // A row's schedule, and none of the Foundation Shipper's.
    #[tactic(auto, unfolding(crate::specs::Share::weights))]
    pub(crate) fn weight_at(&self, row: usize) -> u32
        requires { row < length self.now.rows.now }
        ensures { result ≡ weights self.now.foundation self.now.rows.now row }
    {
        if row == self.foundation {
            return 0;
        }
        self.rows[row]
    }

    // The schedule total.
    pub(crate) fn total(&self) -> u32
        requires { Rows self.now.rows.now }
        ensures { result ≡ total self.now.foundation self.now.rows.now }
    {
        let mut total: u32 = 0;
        for row in 0..self.rows.len() {
            total += self.weight_at(row);
        }
        total
    }

    // Whether the total is zero, however great the schedules are.
    fn weigh_nothing(&self) -> bool
        ensures { result ≡ (total self.now.foundation self.now.rows.now == 0) }
    {
        (0..self.rows.len()).all(|row| self.weight_at(row) == 0)
    }
}

// Whether there is net gas to share and no schedule to share it by.
#[tactic(auto, unfolding(crate::specs::Share::unscheduled))]
pub fn is_unscheduled(gas: u64, supplied: u64, foundation: usize, schedules: &[u32]) -> bool
    ensures { result ≡ unscheduled (gas - supplied) (total foundation schedules.now) }
{
    let schedules = Schedules {
        foundation,
        rows: schedules,
    };
    supplied < gas && schedules.weigh_nothing()
}
