// Auction and lower tier: a class that is held only where no row above it is short.
ghost use Rattle.std.specs.Prelude.{◌≡◌, ◌≤◌, length};
ghost use Rattle.columns.specs.Column.{col};
ghost use Rattle.rounds.specs.Private.{Ready};
ghost use Rattle.dayshares.specs.Class.{full};
ghost use Rattle.dayshares.specs.Private.{Offered};

use crate::round::hold;
use rounds::Given;
use units::Gigajoules;

// One round where the class is held; zero to each row, at level 0, where it is not.
pub fn offer(held: bool, capacity: u32, weights: &[u32], needs: &[u32], shares: &mut [u32]) -> Given
    requires { Ready capacity weights.now needs.now (length shares.old) }
    ensures { Offered held capacity weights.now needs.now shares.old result shares.new }
{
    if held {
        return hold(capacity, weights, needs, shares);
    }
    shares[..weights.len()].fill(0);
    Given {
        level: 0,
        total: Gigajoules(0),
    }
}

// Whether every row is given its schedule.
pub fn is_full(schedule: &[u32], given: &[u32]) -> bool
    requires { length schedule.now ≤ length given.now }
    ensures { result ≡ full (length schedule.now) (col schedule.now) (col given.now) }
{
    schedule.iter().zip(given).all(|(need, had)| need <= had)
}
