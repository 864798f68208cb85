// A meter's overruns and what the greatest of them costs.
ghost use Rattle.std.specs.Prelude.{◌≡◌};
ghost use Rattle.daymeters.specs.Figures.{meter_figures};
ghost use Rattle.tariff.specs.Charges.{overrun_charge, charge_verdict};
ghost use Rattle.chargelisting.specs.ChargesText.{overruns_of, charge_figures};

use daymeters::{
    MeterFigures, excused_hours, excused_row, excused_yesterday, meter_figures, meter_hours,
    meter_yesterday,
};
use dayrows::Tables;
use metered::Side;
use overruns::{ExcusedHours, Overruns, ShipperDay, overruns_of_day};
use tariff::overrun_charge;
use units::{Cents, Gigajoules, Megajoules, Rate};

const NO_OVERRUNS: Overruns = Overruns {
    hourly: Megajoules(0),
    twelve_hourly: Megajoules(0),
    daily_receipt: Megajoules(0),
    daily_delivery: Megajoules(0),
    greatest: Megajoules(0),
};

const NO_SIDE: Side = Side {
    forward: Gigajoules(0),
    backhaul: Gigajoules(0),
    metered: Megajoules(0),
};

const NO_FIGURES: MeterFigures = MeterFigures {
    shipper: 0,
    p: Gigajoules(0),
    m: Gigajoules(0),
    receipt: NO_SIDE,
    delivery: NO_SIDE,
};

// A meter's figures, all zero where they are refused.
fn figures_of(tables: Tables, row: u32) -> MeterFigures
    ensures { result ≡ meter_figures tables.entry.counts tables.entry.numbers.now row }
{
    meter_figures(tables, row).unwrap_or(NO_FIGURES)
}

// A meter's overruns, all zero where they are refused.
fn overruns_of(tables: Tables, row: u32) -> Overruns
    ensures { result ≡ overruns_of tables.entry.counts tables.entry.numbers.now row }
{
    let figures = figures_of(tables, row);
    let excused_row = excused_row(tables, figures.shipper);
    let day = ShipperDay {
        p: figures.p,
        m: figures.m,
        yesterday: meter_yesterday(tables, row),
        hours: meter_hours(tables, row),
        receipt: figures.receipt,
        delivery: figures.delivery,
    };
    let excused = ExcusedHours {
        yesterday: excused_yesterday(tables, excused_row),
        hours: excused_hours(tables, excused_row),
    };
    overruns_of_day(&day, &excused).unwrap_or(NO_OVERRUNS)
}

// What an overrun costs, zero where it is refused.
fn cents_of(rate: Rate, overrun: Megajoules) -> u64
    ensures { result ≡ (charge_verdict (overrun_charge rate overrun)).figures.0 }
{
    overrun_charge(rate, overrun).unwrap_or(Cents(0)).0
}

// The figures of a meter's line.
pub fn charge_figures(rate: Rate, tables: Tables, row: u32) -> [u64; 7]
    ensures { result ≡ charge_figures rate tables.entry.counts tables.entry.numbers.now row }
{
    let figures = figures_of(tables, row);
    let over = overruns_of(tables, row);
    [
        figures.shipper as u64,
        over.hourly.0,
        over.twelve_hourly.0,
        over.daily_receipt.0,
        over.daily_delivery.0,
        over.greatest.0,
        cents_of(rate, over.greatest),
    ]
}
