// What is written row by row to the front of a list.
ghost use Rattle.std.specs.Prelude.{◌≡◌, ℕ, ◌+◌, ◌-◌, ◌≤◌, ◌<◌, length};
ghost use Rattle.std.proofs.lemmas.List.Edits.{sets};
ghost use Rattle.columns.specs.Column.{col, listed};
ghost use Rattle.dayshares.specs.Firm.{three_quarters};

use units::Gigajoules;

// Writes each row's Free Flow MDQ.
pub fn free_flow_list(mdqs: &[u32], list: &mut [u32])
    requires { length mdqs.now ≤ length list.old }
    ensures { list.new
        ≡ sets list.old 0 (listed (length mdqs.now) (λ i. three_quarters (col mdqs.now i))) }
{
    for (row, mdq) in mdqs.iter().enumerate() {
        list[row] = crate::free_flow_mdq(Gigajoules(*mdq)).0;
    }
}

// Writes what each whole has beyond its part, never below zero.
pub fn rest_list(wholes: &[u32], parts: &[u32], list: &mut [u32])
    requires { (length wholes.now ≤ length parts.now) × (length wholes.now ≤ length list.old) }
    ensures { list.new
        ≡ sets list.old 0
        (listed (length wholes.now) (λ i. col wholes.now i - col parts.now i)) }
{
    for (row, whole) in wholes.iter().enumerate() {
        list[row] = whole.saturating_sub(parts[row]);
    }
}

// Adds to each row.
pub fn add_list(more: &[u32], list: &mut [u32])
    requires { (length more.now ≤ length list.old)
        × ((i : ℕ) → i < length more.now → col list.old i + col more.now i ≤ 1_000_000) }
    ensures { list.new
        ≡ sets list.old 0 (listed (length more.now) (λ i. col list.old i + col more.now i)) }
{
    for (row, figure) in more.iter().enumerate() {
        list[row] += *figure;
    }
}
