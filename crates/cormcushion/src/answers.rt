// Each opened routine's answer, packed.
ghost use Rattle.std.specs.Prelude.{◌≡◌};
ghost use Rattle.cormcushion.specs.Answers.{of_listing, of_reading, of_round, of_shares};

use crate::packed::{accepted, refused};
use dayformat::{Day, numbers_of};
use dayshares::Shares;
use rounds::Given;
use units::Refusal;

// The size of a text.
pub fn of_listing(listing: Result<usize, Refusal>) -> u64
    ensures { result ≡ of_listing listing }
{
    match listing {
        Err(refusal) => refused(refusal),
        Ok(size) => accepted(size as u64),
    }
}

// How many numbers a day has.
pub fn of_reading(reading: Result<Day, Refusal>) -> u64
    ensures { result ≡ of_reading reading }
{
    match reading {
        Err(refusal) => refused(refusal),
        Ok(day) => accepted(numbers_of(day.counts) as u64),
    }
}

// The level of a round.
pub fn of_round(round: Result<Given, Refusal>) -> u64
    ensures { result ≡ of_round round }
{
    match round {
        Err(refusal) => refused(refusal),
        Ok(given) => accepted(given.level),
    }
}

// What a day's shares leave.
pub fn of_shares(day: Result<Shares, Refusal>) -> u64
    ensures { result ≡ of_shares day }
{
    match day {
        Err(refusal) => refused(refusal),
        Ok(shares) => accepted(shares.left.0 as u64),
    }
}
