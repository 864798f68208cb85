// 01, "The day file": the format as data, and where a day's rows stand.
#![tactic(auto)]

mod body;
mod day;
mod form;
mod layout;
mod order;
mod rules;

pub use body::{BACKHAUL, Column, GIGAJOULES, HOUR, METER_HOURS, NAME, NUMBER, SIDE, column_at};
pub use day::{Day, Head};
pub use form::{
    ENTRY_BYTE, ENTRY_COLUMNS, ENTRY_FIELD, Form, HEAD_FIELD, HEADER, LENGTH_WIDTH, MOST_ENTRIES,
    POINT_COLUMNS, SHIPPER_COLUMNS, Tag, form_of,
};
pub use layout::{
    Counts, MOST_BYTES, MOST_NUMBERS, NO_ROWS, count_of, fields_place, file_size, numbers_of,
    row_place,
};
pub use order::{TABLES, tag_at};
pub use rules::{Cap, MDQS, NAMES, Name, Pair, cap_of, mdqs_of, names_of};
