// The entries of a point: a part of the receipt list or of the delivery list, opened.
#![tactic(auto)]

ghost use Rattle.std.specs.Prelude.{◌≡◌, not, ◌+◌, ◌-◌, ◌*◌, ◌≤◌, eqb, leb, ltb, replicate, Ok};
ghost use Rattle.columns.specs.Column.{col};
ghost use Rattle.columns.specs.First.{first};
ghost use Rattle.units.specs.Refusals.{◌then◌, keep};
ghost use Rattle.dayruns.specs.Walk.{file_check};
ghost use Rattle.pointentries.specs.Entries.{asked, entries_check, part_start, part_long, start_in, long_in, Part};
ghost use Rattle.pointentries.specs.Private.{EntriesWalked, ListChecked, most_entry_numbers};

use dayformat::{ENTRY_COLUMNS, ENTRY_FIELD, MOST_ENTRIES, NO_ROWS, Tag};
use dayrows::{Source, number_of};
use dayruns::{Walk, run_fields};
use units::{Refusal, keep};

// How many numbers a list has at most: an array, for there is no heap. A side is a number below, as the format and C have it.
const MOST_NUMBERS: usize = MOST_ENTRIES as usize * ENTRY_COLUMNS;

// A list of one side's entries walked through. Their rows go into the numbers.
fn walk_entries(list: &[u8], side: usize, numbers: &mut [usize]) -> Walk
    requires { numbers.old ≡ replicate most_entry_numbers 0 }
    ensures { EntriesWalked list.now side numbers.new result }
{
    let run = run_fields(Source::Side(side), NO_ROWS, list, Tag::Entry, 0, numbers);
    let walk = Walk {
        found: run.found,
        place: run.place,
        counts: NO_ROWS.with(Tag::Entry, run.rows),
    };
    walk.end(list)
}

// What is asked, then the list. The rows of a sound list go into the numbers.
fn check_list(list: &[u8], side: u8, point: u16, numbers: &mut [usize]) -> Result<(), Refusal>
    requires { numbers.old ≡ replicate most_entry_numbers 0 }
    ensures { ListChecked list.now side point numbers.new result }
{
    let walk = walk_entries(list, side as usize, numbers);
    examine(walk, side, point)
}

// What is asked, then the list as it was walked through.
#[tactic(auto, unfolding(units::specs::Refusals::first_refusal))]
fn examine(walk: Walk, side: u8, point: u16) -> Result<(), Refusal>
    ensures { result ≡ (Ok tt then keep (leb side 1) 3 then keep (ltb 0 point) 3 then file_check walk) }
{
    keep(side <= 1, 3)?;
    keep(0 < point, 3)?;
    walk.check()
}

// The first of 01's tests that the list asked for, or what is asked, fails. Any number may be asked for as a side: 3 from 2 on.
pub fn check_entries(receipt: &[u8], delivery: &[u8], side: u8, point: u16) -> Result<(), Refusal>
    ensures { result ≡ entries_check receipt.now delivery.now side point }
{
    let mut numbers = [0usize; MOST_NUMBERS];
    if side == 1 {
        return check_list(delivery, side, point, &mut numbers);
    }
    check_list(receipt, side, point, &mut numbers)
}

// Whether a row's point, the second of its four numbers, is the one asked for.
fn is_of(numbers: &[usize], row: usize, point: u16) -> bool
    requires { row ≤ 512 }
    ensures { result ≡ eqb (col numbers.now (row * 4 + 1)) point }
{
    number_of(numbers, row * 4 + 1) == point as usize
}

// The point's first row, or how many rows there are.
fn first_entry(numbers: &[usize], rows: usize, point: u16) -> usize
    requires { rows ≤ 512 }
    ensures { (result ≡ first rows (λ row. eqb (col numbers.now (row * 4 + 1)) point)) × (result ≤ rows) }
{
    for row in 0..rows {
        if is_of(numbers, row, point) {
            return row;
        }
    }
    rows
}

// How many rows from a row on are the point's.
fn many_entries(numbers: &[usize], rows: usize, point: u16, from: usize) -> usize
    requires { (from ≤ rows) × (rows ≤ 512) }
    ensures { (result ≡ first (rows - from) (λ more. not (eqb (col numbers.now ((from + more) * 4 + 1)) point)))
        × (from + result ≤ rows) }
{
    let left = rows - from;
    for more in 0..left {
        if !is_of(numbers, from + more, point) {
            return more;
        }
    }
    left
}

// The run of the point's entries in a list of one side.
fn part_of<'a>(list: &'a [u8], side: u8, point: u16) -> &'a [u8]
    ensures { Part list.entry result
        (start_in list.now side point)
        (long_in list.now side point) }
{
    let mut numbers = [0usize; MOST_NUMBERS];
    match check_list(list, side, point, &mut numbers) {
        Err(_) => {
            let end = list.len();
            &list[end..end]
        }
        Ok(()) => {
            let rows = list.len() / ENTRY_FIELD;
            let row = first_entry(&numbers, rows, point);
            let many = many_entries(&numbers, rows, point, row);
            let start = row * ENTRY_FIELD;
            let end = (row + many) * ENTRY_FIELD;
            &list[start..end]
        }
    }
}

// The run of the point's entries in the list asked for.
pub fn entries_of_point<'a>(receipt: &'a [u8], delivery: &'a [u8], side: u8, point: u16) -> &'a [u8]
    ensures { Part (asked side receipt.entry delivery.entry) result
        (part_start receipt.now delivery.now side point)
        (part_long receipt.now delivery.now side point) }
{
    if side == 1 {
        return part_of(delivery, side, point);
    }
    part_of(receipt, side, point)
}
