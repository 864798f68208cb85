// The shares of an hour's capacity.
ghost use Rattle.std.specs.Prelude.{◌≡◌, ◌≤◌, ◌<◌, length};
ghost use Rattle.pointshares.specs.Share.{hour_shares};
ghost use Rattle.pointshares.specs.Private.{Shareable, Filled, totals};

use crate::totals::Totals;

// A capacity, the shippers' entitlements and firm MDQs that share it, and the totals of both.
#[derive(Clone, Copy)]
pub struct Sharing<'a> {
    capacity: u64,
    totals: Totals,
    entitlements: &'a [u64],
    mdqs: &'a [u32],
    ghost shareable: { Shareable capacity totals entitlements.now mdqs.now },
}

impl<'a> Sharing<'a> {
    pub(crate) fn new(capacity: u64, entitlements: &'a [u64], mdqs: &'a [u32]) -> Self
        requires { Shareable capacity (totals entitlements.now mdqs.now) entitlements.now mdqs.now }
        ensures capacity { result.capacity ≡ capacity }
        ensures entitlements { result.entitlements.now ≡ entitlements.now }
        ensures mdqs { result.mdqs.now ≡ mdqs.now }
    {
        let totals = Totals::of(entitlements, mdqs);
        Self {
            capacity,
            totals,
            entitlements,
            mdqs,
        }
    }

    // What the capacity gives one shipper.
    #[tactic(auto, unfolding(crate::specs::Share::share))]
    fn share_at(&self, row: usize) -> u64
        requires { row < length self.now.entitlements.now }
        ensures { result ≡ hour_shares self.now.entitlements.now self.now.mdqs.now self.now.capacity row }
    {
        let entitlement = self.entitlements[row];
        if self.entitlements.len() < 2 {
            return self.capacity;
        }
        if self.capacity < self.totals.entitlement {
            return self.capacity * entitlement / self.totals.entitlement;
        }
        let spare = self.capacity - self.totals.entitlement;
        if spare == 0 {
            return entitlement;
        }
        entitlement + spare * self.mdqs[row] as u64 / self.totals.mdq as u64
    }

    // Writes each shipper's share to the front of `shares`, and returns what they are given together.
    pub(crate) fn fill(&self, shares: &mut [u64]) -> u64
        requires { length self.now.entitlements.now ≤ length shares.old }
        ensures { Filled self.now.capacity self.now.entitlements.now self.now.mdqs.now shares.old result shares.new }
    {
        let mut given: u64 = 0;
        for row in 0..self.entitlements.len() {
            let share = self.share_at(row);
            shares[row] = share;
            given += share;
        }
        given
    }
}
