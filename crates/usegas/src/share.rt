// The shares of net gas.
ghost use Rattle.std.specs.Prelude.{◌≡◌, ◌≤◌, ◌<◌, length};
ghost use Rattle.usegas.specs.Share.{gas_shares, total};
ghost use Rattle.usegas.specs.Private.{Shareable, Filled};

use crate::schedules::Schedules;

// Net gas, the schedules that share it, and their total.
#[derive(Clone, Copy)]
pub struct Sharing<'a> {
    net: u64,
    total: u32,
    schedules: Schedules<'a>,
    ghost shareable: { Shareable net total schedules.foundation schedules.rows.now },
}

impl<'a> Sharing<'a> {
    pub(crate) fn new(net: u64, schedules: Schedules<'a>) -> Self
        requires { Shareable net (total schedules.foundation schedules.rows.now) schedules.foundation schedules.rows.now }
        ensures net { result.net ≡ net }
        ensures schedules { result.schedules ≡ schedules.entry }
    {
        let total = schedules.total();
        Self {
            net,
            total,
            schedules,
        }
    }

    // What one shipper supplies of the net gas.
    fn share_at(&self, row: usize) -> u64
        requires { row < length self.now.schedules.rows.now }
        ensures { result ≡ gas_shares self.now.schedules.foundation self.now.schedules.rows.now self.now.net row }
    {
        if self.net == 0 {
            return 0;
        }
        self.net * self.schedules.weight_at(row) as u64 / self.total as u64
    }

    // Writes each shipper's share to the front of `shares`, and returns what they supply together.
    pub(crate) fn fill(&self, shares: &mut [u64]) -> u64
        requires { length self.now.schedules.rows.now ≤ length shares.old }
        ensures { Filled self.now.net self.now.schedules.foundation self.now.schedules.rows.now shares.old result shares.new }
    {
        let mut given: u64 = 0;
        for row in 0..self.schedules.rows.len() {
            let share = self.share_at(row);
            shares[row] = share;
            given += share;
        }
        given
    }
}
