// An answer as one number in fixed decimal digits: a value or a place in the last fifteen, before them 01's number in two.
ghost use Rattle.std.specs.Prelude.{◌≡◌};
ghost use Rattle.cormcushion.specs.Packed.{accepted, refused};

use units::Refusal;

const NUMBER: u64 = 1_000_000_000_000_000;

pub fn accepted(value: u64) -> u64
    ensures { result ≡ accepted value }
{
    value % NUMBER
}

pub fn refused(refusal: Refusal) -> u64
    ensures { result ≡ refused refusal }
{
    refusal.number as u64 * NUMBER + refusal.place as u64 % NUMBER
}
