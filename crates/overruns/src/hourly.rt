ghost use Rattle.std.specs.Prelude.{◌≡◌};
ghost use Rattle.metered.specs.Private.{ComparedWithin};
ghost use Rattle.overruns.specs.Excused.{excused_hourly, excused_hourly_check, excused_hourly_answer};

use crate::gas::thousandths;
use metered::{examine_excused_hours, examine_hours, excess};
use units::{Gigajoules, MOST_GIGAJOULES, Megajoules, Refusal, greater, keep};

// The sum over the hours of the greater of the two excesses, each of what was metered less what is excused.
pub fn hourly(
    m: Gigajoules,
    hours: [[Megajoules; 24]; 2],
    excused: [[Megajoules; 24]; 2],
) -> Megajoules
    requires { ComparedWithin hours excused }
    ensures { result.0 ≡ (excused_hourly m hours excused).0 }
{
    let most_delivered = thousandths(50, m);
    let most_received = thousandths(44, m);
    let mut total = 0;
    // Four rows are read at one index: zips of zips would be no plainer.
    for hour in 0..24usize {
        let delivered = excess(hours[0][hour], excused[0][hour]);
        let received = excess(hours[1][hour], excused[1][hour]);
        let over = greater(
            excess(delivered, most_delivered),
            excess(received, most_received),
        );
        total += over.0;
    }
    Megajoules(total)
}

// The first of the tests that the figures fail.
#[tactic(auto, unfolding(crate::specs::Hourly::hourly_check, crate::specs::Excused::excused_hourly_check, units::specs::Refusals::first_refusal))]
fn examine(
    m: Gigajoules,
    hours: [[Megajoules; 24]; 2],
    excused: [[Megajoules; 24]; 2],
) -> Result<(), Refusal>
    ensures { result ≡ excused_hourly_check m hours excused }
{
    keep(m.0 <= MOST_GIGAJOULES.0, 3)?;
    examine_hours(hours)?;
    examine_excused_hours(hours, excused)
}

// The hourly overrun of a day from M, today's Adjusted MDQ, and both sides' hours, delivered first, metered and excused (cl. 5.4).
pub fn hourly_overrun(
    m: Gigajoules,
    hours: [[Megajoules; 24]; 2],
    excused: [[Megajoules; 24]; 2],
) -> Result<Megajoules, Refusal>
    ensures { result ≡ excused_hourly_answer m hours excused }
{
    examine(m, hours, excused)?;
    Ok(hourly(m, hours, excused))
}
