// What the entries of a point say: a run of tag 4 fields.
ghost use Rattle.std.specs.Prelude.{◌≡◌, ◌≤◌, ◌<◌, min};
ghost use Rattle.std.proofs.lemmas.List.Edits.{sets};
ghost use Rattle.columns.specs.Column.{col, listed};
ghost use Rattle.pointhours.specs.HourText.{firm_mdq};
ghost use Rattle.pointhours.specs.Parts.{most_entries, most_number, entries_in, shipper_in, entitlement_in, mdq_in};

use bigendian::number_at;
use dayformat::{ENTRY_FIELD, HEADER, HOUR, NAME, SIDE, Tag};
use dayrows::Tables;

// How many entries a file has at most. Lists of them are arrays, for there is no heap.
pub const MOST_ENTRIES: usize = dayformat::MOST_ENTRIES as usize;

// Where an entry's shipper stands in its field, behind side and point, and its reserved entitlement.
const SHIPPER_PLACE: usize = HEADER + SIDE.width + NAME.width;

const ENTITLEMENT_PLACE: usize = SHIPPER_PLACE + NAME.width;

// How many entries a part has, of a longer run as many as a file can have.
pub fn entries_in(part: &[u8]) -> usize
    ensures { (result ≡ entries_in part.now) × (result ≤ most_entries) }
{
    (part.len() / ENTRY_FIELD).min(MOST_ENTRIES)
}

// The shipper of an entry.
pub fn shipper_in(part: &[u8], entry: usize) -> u32
    requires { entry < most_entries }
    ensures { result ≡ shipper_in part.now entry }
{
    number_at(part, entry * ENTRY_FIELD + SHIPPER_PLACE, NAME.width)
}

// Its reserved entitlement.
fn entitlement_in(part: &[u8], entry: usize) -> u32
    requires { entry < most_entries }
    ensures { result ≡ entitlement_in part.now entry }
{
    number_at(part, entry * ENTRY_FIELD + ENTITLEMENT_PLACE, HOUR.width)
}

// The firm MDQ of a shipper's row, as far as a u32 goes.
fn firm_mdq(tables: Tables, shipper: u32) -> u32
    ensures { result ≡ min (firm_mdq tables.entry.counts (col tables.entry.numbers.now) shipper) most_number }
{
    let row = dayvalues::row_beginning(tables, Tag::Shipper, shipper);
    let mdq = dayvalues::number_at(tables, Tag::Shipper, row, 1);
    u32::try_from(mdq).unwrap_or(u32::MAX)
}

// Writes the reserved entitlements of a point's entries and the firm MDQs of their shippers to the fronts of two lists. Both are lent:
// handed back as a value they were copied, and a point without entries took two thirds longer.
pub fn read_entries(
    tables: Tables,
    part: &[u8],
    entitlements: &mut [u64; MOST_ENTRIES],
    mdqs: &mut [u32; MOST_ENTRIES],
)
    ensures entitlements { entitlements.new
        ≡ sets entitlements.old 0 (listed (entries_in part.now) (entitlement_in part.now)) }
    ensures mdqs { mdqs.new
        ≡ sets mdqs.old 0
        (listed (entries_in part.now) (mdq_in tables.entry.counts (col tables.entry.numbers.now) part.now)) }
{
    for entry in 0..entries_in(part) {
        entitlements[entry] = entitlement_in(part, entry) as u64;
        mdqs[entry] = firm_mdq(tables, shipper_in(part, entry));
    }
}
