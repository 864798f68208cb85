ghost use Rattle.std.specs.Prelude.{◌≡◌, ◌≤◌};
ghost use Rattle.sharing.specs.Round.{share, top};

// The highest level. Levels stay plain numbers: they are halved, compared and stepped past the top, and a type of their own would be
// opened at each step.
pub const TOP: u64 = 1_000_000_000_000;

// What a level gives a row.
pub fn share_at(weight: u32, need: u32, level: u64) -> u32
    requires { (weight ≤ 1_000_000) × (level ≤ top) }
    ensures { result ≡ share weight need level }
{
    let part = weight as u64 * level / 1_000_000;
    part.min(need as u64) as u32
}

// What the top gives a row: all that it needs, where it has a weight.
pub fn share_at_top(weight: u32, need: u32) -> u32
    requires { need ≤ 1_000_000 }
    ensures { result ≡ share weight need top }
{
    if weight == 0 {
        return 0;
    }
    need
}
