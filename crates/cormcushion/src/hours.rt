// Metered hours as megajoules.
ghost use Rattle.std.specs.Prelude.{◌≡◌};
ghost use Rattle.cormcushion.specs.Meter.{hours_of};

use units::Megajoules;

// A list of hours, yesterday's 11 or today's 24.
pub fn hours_of<const N: usize>(figures: &[u64; N]) -> [Megajoules; N]
    ensures { result ≡ hours_of N figures.now }
{
    let mut hours = [Megajoules(0); N];
    for (hour, figure) in figures.iter().enumerate() {
        hours[hour] = Megajoules(*figure);
    }
    hours
}
