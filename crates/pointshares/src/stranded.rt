ghost use Rattle.std.specs.Prelude.{◌≡◌, ◌-◌};
ghost use Rattle.pointshares.specs.Share.{total, stranded};

// What a capacity has beyond the entitlements, however great they are.
fn beyond(capacity: u64, entitlements: &[u64]) -> u64
    ensures { result ≡ capacity - total entitlements.now }
{
    entitlements.iter().fold(
        capacity,
        |left, entitlement| left.saturating_sub(*entitlement),
    )
}

// Whether two or more are at a point that has capacity beyond their entitlements and no firm MDQ to share it by.
#[tactic(auto, unfolding(crate::specs::Share::stranded))]
pub fn is_stranded(capacity: u64, entitlements: &[u64], mdqs: &[u32]) -> bool
    ensures { result ≡ stranded entitlements.now mdqs.now capacity }
{
    2 <= entitlements.len()
        && 0 < beyond(capacity, entitlements)
        && mdqs.iter().all(|mdq| *mdq == 0)
}
