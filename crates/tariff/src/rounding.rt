ghost use Rattle.std.specs.Prelude.{◌≡◌};
ghost use Rattle.tariff.specs.HalfUp.{half_up};

// A quotient rounded half up: one more where the rest is at least half of the denominator. By zero it is zero, so that any test may ask it.
pub fn half_up(numerator: u64, denominator: u64) -> u64
    ensures { result ≡ half_up numerator denominator }
{
    if denominator == 0 {
        return 0;
    }
    let whole = numerator / denominator;
    let rest = numerator % denominator;
    if rest < denominator - rest {
        return whole;
    }
    whole + 1
}
