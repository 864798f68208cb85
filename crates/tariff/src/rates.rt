// Schedule 2, as at January 2019.
ghost use Rattle.std.specs.Prelude.{◌≡◌};
ghost use Rattle.tariff.specs.Rates.{january_2019};

use units::Rate;

// for a gigajoule of overrun
pub const OVERRUN_RATE: Rate = Rate(359_000);
// for a gigajoule varied up
pub const VARIATION_RATE: Rate = Rate(4_075);
// for a request
pub const REQUEST_RATE: Rate = Rate(36_271_000);

#[derive(Clone, Copy)]
pub struct Rates {
    pub overrun: Rate,
    pub variation: Rate,
    pub request: Rate,
}

// The three constants as one value, held to the definitions.
pub fn january_2019() -> Rates
    ensures { result ≡ january_2019 }
{
    Rates {
        overrun: OVERRUN_RATE,
        variation: VARIATION_RATE,
        request: REQUEST_RATE,
    }
}
