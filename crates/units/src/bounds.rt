// 01, "Units and bounds": the greatest that each figure may be. The least is zero, and of an imbalance the same below zero.
use crate::{Gigajoules, Megajoules, Rate};

// MDQ, schedule, free flow and compressor capacity, a round's weight and need
pub const MOST_GIGAJOULES: Gigajoules = Gigajoules(1_000_000);
// metered hour, hourly point capacity, reserved entitlement
pub const MOST_HOUR: Megajoules = Megajoules(100_000_000);
// backhaul metered over a day
pub const MOST_BACKHAUL: Megajoules = Megajoules(2_400_000_000);
// system use totals
pub const MOST_SYSTEM_USE: Megajoules = Megajoules(1_000_000_000);
// accumulated imbalance, either way
pub const MOST_IMBALANCE: Megajoules = Megajoules(1_000_000_000);
// chargeable overrun
pub const MOST_CHARGEABLE: Megajoules = Megajoules(28_800_000_000);
// requests in a day
pub const MOST_REQUESTS: u32 = 1_000;

pub const MOST_RATE: Rate = Rate(100_000_000);
// CPI in tenths
pub const MOST_CPI: u32 = 100_000;
// rows of every list of shippers; no heap, so lists are arrays of so many, here and above
pub const MOST_ROWS: usize = 64;
// capacity of a round called alone
pub const MOST_CAPACITY: Gigajoules = Gigajoules(2_000_000);
