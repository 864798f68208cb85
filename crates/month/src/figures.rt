// The seven figures of a day, or their sums over a month.
ghost use Rattle.std.specs.Prelude.{◌≡◌};
ghost use Rattle.excesses.specs.Greatest.{greatest};
ghost use Rattle.month.specs.Figures.{figures_check, figure_list};
ghost use Rattle.month.specs.Private.{plus, Small};

use units::{
    Cents, MOST_BACKHAUL, MOST_CHARGEABLE, MOST_GIGAJOULES, MOST_HOUR, MOST_RATE, MOST_REQUESTS,
    Megajoules, Refusal, greater, keep,
};

// The four overruns in 01's order, the chargeable quantity, the charges for variation and for requests.
#[derive(Clone, Copy)]
pub struct Figures {
    pub hourly: Megajoules,
    pub twelve_hourly: Megajoules,
    pub daily_receipt: Megajoules,
    pub daily_delivery: Megajoules,
    pub chargeable: Megajoules,
    pub variation: Cents,
    pub request: Cents,
}

pub const NO_FIGURES: Figures = Figures {
    hourly: Megajoules(0),
    twelve_hourly: Megajoules(0),
    daily_receipt: Megajoules(0),
    daily_delivery: Megajoules(0),
    chargeable: Megajoules(0),
    variation: Cents(0),
    request: Cents(0),
};

// What 01's bounds can yield at most: all gas at its bound and every limit and schedule zero; the greatest rate.
pub const FIGURE_BOUNDS: Figures = Figures {
    hourly: Megajoules(24 * MOST_HOUR.0),
    twelve_hourly: Megajoules(24 * 12 * MOST_HOUR.0),
    daily_receipt: Megajoules(24 * MOST_HOUR.0 + MOST_BACKHAUL.0),
    daily_delivery: Megajoules(24 * MOST_HOUR.0 + MOST_BACKHAUL.0),
    chargeable: MOST_CHARGEABLE,
    variation: Cents(MOST_RATE.0 as u64 * MOST_GIGAJOULES.0 as u64 / 1_000),
    request: Cents(MOST_RATE.0 as u64 / 1_000 * MOST_REQUESTS as u64),
};

impl Figures {
    // 3 for a figure larger than 01's bounds can yield, or a chargeable quantity that is not the greatest of the four overruns.
    pub fn check(self) -> Result<(), Refusal>
        ensures { result ≡ figures_check self }
    {
        let figures = numbers_of(self);
        let most = numbers_of(FIGURE_BOUNDS);
        for place in 0..7usize {
            keep(figures[place] <= most[place], 3)?;
        }
        keep(self.chargeable.0 == greatest_of(self).0, 3)
    }
}

// Cl. 7.2: of the four overruns the greatest is charged.
fn greatest_of(figures: Figures) -> Megajoules
    ensures { result.0 ≡ greatest figures.hourly.0 figures.twelve_hourly.0 figures.daily_receipt.0
        figures.daily_delivery.0 }
{
    greater(
        greater(figures.hourly, figures.twelve_hourly),
        greater(figures.daily_receipt, figures.daily_delivery),
    )
}

// Each figure with its like.
pub fn plus(one: Figures, other: Figures) -> Figures
    requires { Small (plus one other) }
    ensures { result ≡ plus one other }
{
    Figures {
        hourly: Megajoules(one.hourly.0 + other.hourly.0),
        twelve_hourly: Megajoules(one.twelve_hourly.0 + other.twelve_hourly.0),
        daily_receipt: Megajoules(one.daily_receipt.0 + other.daily_receipt.0),
        daily_delivery: Megajoules(one.daily_delivery.0 + other.daily_delivery.0),
        chargeable: Megajoules(one.chargeable.0 + other.chargeable.0),
        variation: Cents(one.variation.0 + other.variation.0),
        request: Cents(one.request.0 + other.request.0),
    }
}

// As bare numbers, each at its place.
pub fn numbers_of(figures: Figures) -> [u64; 7]
    ensures { result ≡ figure_list figures }
{
    [
        figures.hourly.0,
        figures.twelve_hourly.0,
        figures.daily_receipt.0,
        figures.daily_delivery.0,
        figures.chargeable.0,
        figures.variation.0,
        figures.request.0,
    ]
}
