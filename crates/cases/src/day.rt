// A day as a case has it, and a day's shares as the line of an answer has them.
ghost use Rattle.std.specs.Prelude.{◌≡◌};
ghost use Rattle.cases.specs.Case.{day_at, share_figures};

use crate::case::word;
use dayformat::{Counts, Day, Head};
use dayshares::Shares;
use units::Gigajoules;

// A day's head and counts, a word each.
pub fn day_of(case: &[u8]) -> Day
    ensures { result ≡ day_at case.now }
{
    Day {
        head: Head {
            day: word(case, 0),
            free_flow: Gigajoules(word(case, 1)),
            compressor: Gigajoules(word(case, 2)),
        },
        counts: Counts {
            shippers: word(case, 3),
            points: word(case, 4),
            entries: word(case, 5),
            meters: word(case, 6),
            excused: word(case, 7),
        },
    }
}

// The five levels, what each class is given together, and LEFT.
pub fn figures_of(shares: Shares) -> [u64; 9]
    ensures { result ≡ share_figures shares }
{
    let levels = shares.levels;
    [
        levels.one,
        levels.two,
        levels.three,
        levels.auction,
        levels.lower_tier,
        shares.firm.0 as u64,
        shares.auction.0 as u64,
        shares.lower_tier.0 as u64,
        shares.left.0 as u64,
    ]
}
