// An hour at a point, shared and laid as lines.
ghost use Rattle.std.specs.Prelude.{◌≡◌, ◌^◌, ◌≤◌, length, Ok};
ghost use Rattle.columns.specs.Column.{col};
ghost use Rattle.text.specs.Text.{Laid};
ghost use Rattle.pointhours.specs.HourText.{share_lines};
ghost use Rattle.pointhours.specs.Parts.{entries_in, shipper_in, most_entries, part_lines};

use crate::entries::{MOST_ENTRIES, entries_in, read_entries, shipper_in};
use dayrows::Tables;
use lines::{put_line, put_refusal};
use pointshares::share_hour;
use units::Megajoules;

// A line for each entry: its shipper and its share.
fn put_shares(part: &[u8], shares: &[u64], text: &mut [u8], at: usize) -> usize
    requires { (length shares.now ≡ most_entries) × (at ≤ length text.old) }
    ensures { (Laid
        (share_lines (Ok tt) (entries_in part.now) (shipper_in part.now) (col shares.now))
        text.old at result text.new) × (result ≤ 2 ^ 20) }
{
    let many = entries_in(part);
    let mut size = 0;
    for entry in 0..many {
        let figures = [shipper_in(part, entry) as u64, shares[entry]];
        size += put_line(&figures, text, at + size);
    }
    size
}

// The lines of a point's entries, or the line of the point's own refusal. A place past the block's end counts as its end.
pub fn put_hour(
    tables: Tables,
    part: &[u8],
    capacity: Megajoules,
    text: &mut [u8],
    at: usize,
) -> usize
    ensures { (Laid (part_lines tables.entry.counts (col tables.entry.numbers.now) part.now capacity.0)
        text.old at result text.new) × (result ≤ 2 ^ 20) }
{
    let many = entries_in(part);
    let mut entitlements = [0u64; MOST_ENTRIES];
    let mut mdqs = [0u32; MOST_ENTRIES];
    read_entries(tables, part, &mut entitlements, &mut mdqs);
    let mut shares = [0u64; MOST_ENTRIES];
    let shared = share_hour(capacity, &entitlements[..many], &mdqs[..many], &mut shares);
    match shared {
        Err(refusal) => put_refusal(refusal, text, at),
        Ok(_) => put_shares(part, &shares, text, at.min(text.len())),
    }
}
