ghost use Rattle.std.specs.Prelude.{◌≡◌, ◌*◌, ◌^◌, ◌≤◌, ◌<◌, length};
ghost use Rattle.columns.specs.Column.{col};
ghost use Rattle.columns.specs.Sum.{sum};
ghost use Rattle.metered.specs.Private.{Within};

use units::{Gigajoules, Megajoules, in_megajoules};

// So many thousandths of an MDQ, as the clauses set their limits. One of them is whole, so that no division is left to do.
pub fn thousandths(count: u64, mdq: Gigajoules) -> Megajoules
    requires { count ≤ 1000 }
    ensures { (result.0 ≡ count * mdq.0) × (result.0 < 2 ^ 63) }
{
    let thousandth = in_megajoules(mdq).0 / 1000;
    Megajoules(count * thousandth)
}

// The gas of some hours together. That hours are `Within` is asked of each part of a list: a type would be made anew for each.
pub fn gas_of(hours: &[u64]) -> Megajoules
    requires { (length hours.now ≤ 24) × Within hours.now }
    ensures { result.0 ≡ sum (length hours.now) (col hours.now) }
{
    let mut total = 0;
    for hour in hours {
        total += *hour;
    }
    Megajoules(total)
}
