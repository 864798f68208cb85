// A day's tag 4 fields as a receipt list and a delivery list: where they stand in a file, and where the second begins, opened.
#![tactic(auto)]

ghost use Rattle.std.specs.Prelude.{◌≡◌, ◌+◌};
ghost use Rattle.dayformat.specs.declared.form.Tag.TheVariants.{Entry};
ghost use Rattle.dayformat.specs.Layout.{run_size};
ghost use Rattle.entrylists.specs.SideLists.{entries_start, first_delivery};

use dayformat::{Counts, ENTRY_FIELD, HEADER, Tag, fields_place};

// The byte at which a file's entries begin, and the byte at which they end.
pub fn entries_start(counts: Counts) -> usize
    ensures { result ≡ entries_start counts }
{
    fields_place(counts, Tag::Entry)
}

pub fn entries_end(counts: Counts) -> usize
    ensures { result ≡ entries_start counts + run_size counts Entry }
{
    fields_place(counts, Tag::Entry) + counts.entries as usize * ENTRY_FIELD
}

// The byte at which the first entry of side 1 begins in a run of entries, or the end of the last whole entry. The side stands behind
// the header.
pub fn first_delivery(entries: &[u8]) -> usize
    ensures { result ≡ first_delivery entries.now }
{
    let rows = entries.len() / ENTRY_FIELD;
    for row in 0..rows {
        if entries[row * ENTRY_FIELD + HEADER] == 1 {
            return row * ENTRY_FIELD;
        }
    }
    rows * ENTRY_FIELD
}
