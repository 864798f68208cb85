// A round of a class: the open routine of one round, on rows that it accepts.
ghost use Rattle.std.specs.Prelude.{length};
ghost use Rattle.rounds.specs.Private.{Ready};
ghost use Rattle.dayshares.specs.Private.{Held, NextReady, NextHeld};

use crate::lists::{add_list, rest_list};
use rounds::Given;
use units::{Gigajoules, MOST_ROWS};

// One round; its input is ready, so it is not refused.
pub fn hold(capacity: u32, weights: &[u32], needs: &[u32], shares: &mut [u32]) -> Given
    requires { Ready capacity weights.now needs.now (length shares.old) }
    ensures { Held capacity weights.now needs.now shares.old result shares.new }
{
    rounds::share_round(Gigajoules(capacity), weights, needs, shares).unwrap()
}

// A further round: its needs are what is unmet, and its shares are added to what was given.
pub fn hold_next(capacity: u32, weights: &[u32], schedule: &[u32], given: &mut [u32]) -> Given
    requires { NextReady capacity weights.now schedule.now given.old }
    ensures { NextHeld capacity weights.now schedule.now given.old result given.new }
{
    let rows = weights.len();
    let mut needs = [0u32; MOST_ROWS];
    rest_list(schedule, given, &mut needs);
    let mut shares = [0u32; MOST_ROWS];
    let round = hold(capacity, weights, &needs[..rows], &mut shares);
    add_list(&shares[..rows], given);
    round
}
