// A day's fields laid into a block. What lies past the block is dropped.
ghost use Rattle.std.specs.Prelude.{◌≡◌, ◌+◌, ◌^◌, ◌<◌};
ghost use Rattle.std.proofs.lemmas.List.Edits.{sets};
ghost use Rattle.columns.specs.Column.{col, joined};
ghost use Rattle.bigendian.specs.Row.{encode};
ghost use Rattle.dayformat.specs.Format.{widths, field_size, field, many_tables, tag_at};
ghost use Rattle.dayformat.specs.Layout.{run_size};
ghost use Rattle.dayformat.specs.DayBytes.{row_from, fields, file_of};

use bigendian::put_number;
use dayformat::{
    Day, HEAD_FIELD, HEADER, LENGTH_WIDTH, TABLES, Tag, column_at, count_of, form_of, row_place,
    tag_at,
};
use dayrows::{Tables, number_of};

// The body of the row that begins at a place of the numbers, from a byte of the block on.
fn put_body(tag: Tag, numbers: &[usize], from: usize, block: &mut [u8], at: usize)
    requires { (from < 2 ^ 40) × (at < 2 ^ 48) }
    ensures { block.new ≡ sets block.old at
        (encode (widths tag) (row_from (col numbers.now) tag from)) }
{
    let mut byte = at;
    for place in 0..form_of(tag).columns {
        let width = column_at(tag, place).width;
        let number = number_of(numbers, from + place);
        put_number((number % 4_294_967_296) as u32, width, block, byte);
        byte += width;
    }
}

// Its field.
fn put_field(tag: Tag, numbers: &[usize], from: usize, block: &mut [u8], at: usize)
    requires { (from < 2 ^ 40) × (at < 2 ^ 47) }
    ensures { block.new ≡ sets block.old at (field tag (row_from (col numbers.now) tag from)) }
{
    let form = form_of(tag);
    put_number(form.byte as u32, 1, block, at);
    put_number(form.size as u32, LENGTH_WIDTH, block, at + 1);
    put_body(tag, numbers, from, block, at + HEADER);
}

// The fields of one tag; answers where they end.
fn put_fields(tag: Tag, tables: Tables, block: &mut [u8], at: usize) -> usize
    requires { at < 2 ^ 46 }
    ensures { (block.new ≡ sets block.old at (fields tables.entry.counts (col tables.entry.numbers.now) tag))
        × (result ≡ at + run_size tables.entry.counts tag) × (result < at + 2 ^ 41) }
{
    let Tables { counts, numbers } = tables;
    let size = HEADER + form_of(tag).size;
    let mut byte = at;
    for row in 0..count_of(counts, tag) {
        put_field(tag, numbers, row_place(counts, tag, row), block, byte);
        byte += size;
    }
    byte
}

// The fields of the tables, behind the head's.
fn put_tables(tables: Tables, block: &mut [u8])
    ensures { block.new ≡ sets block.old (field_size Tag.Head)
        (joined many_tables (λ place. fields tables.entry.counts (col tables.entry.numbers.now) (tag_at place))) }
{
    let mut at = HEAD_FIELD;
    for place in 0..TABLES {
        at = put_fields(tag_at(place), tables, block, at);
    }
}

// The whole file.
pub fn put_day(day: Day, numbers: &[usize], block: &mut [u8])
    ensures { block.new ≡ sets block.old 0 (file_of day (col numbers.now)) }
{
    let head = day.head;
    let counts = day.counts;
    let tables = Tables { counts, numbers };
    let row = [
        head.day as usize,
        head.free_flow.0 as usize,
        head.compressor.0 as usize,
    ];
    put_field(Tag::Head, &row, 0, block, 0);
    put_tables(tables, block);
}
