// The lines of a point.
ghost use Rattle.std.specs.Prelude.{◌+◌, ◌^◌, ◌≤◌, ◌<◌, length};
ghost use Rattle.columns.specs.Column.{col};
ghost use Rattle.text.specs.Text.{Laid};
ghost use Rattle.pointlisting.specs.PointsText.{point_line, point_lines};

use crate::day::Points;
use dayformat::Tag;
use dayrows::Tables;
use dayvalues::number_at;
use lines::{put_line, put_word};
use pointentries::entries_of_point;
use pointhours::put_hour;
use units::Megajoules;

// POINT, side, point, capacity: figures all.
fn put_title(side: u64, point: u64, capacity: u64, text: &mut [u8], at: usize) -> usize
    requires { at ≤ length text.old + 2 ^ 31 }
    ensures { (Laid (point_line side point capacity) text.old at result text.new) × (result ≤ 4096) }
{
    let size = put_word(b"POINT", text, at);
    let figures = [side, point, capacity];
    size + put_line(&figures, text, at + size)
}

// A row of the point table: its line, then those of its entries, which stand in the list of its side.
pub fn put_point(points: &Points, row: u32, text: &mut [u8], at: usize) -> usize
    requires { (row < points.now.day.counts.points) × (at ≤ length text.old + 2 ^ 31) }
    ensures { (Laid (point_lines points.now.day.counts (col points.now.numbers.now) row)
        text.old at result text.new) × (result ≤ 2 ^ 21) }
{
    let tables = Tables {
        counts: points.day.counts,
        numbers: points.numbers,
    };
    let side = number_at(tables, Tag::Point, row, 0);
    let point = number_at(tables, Tag::Point, row, 1);
    let capacity = number_at(tables, Tag::Point, row, 2);
    let size = put_title(side as u64, point as u64, capacity as u64, text, at);
    let part = entries_of_point(points.receipt, points.delivery, side as u8, point as u16);
    size + put_hour(tables, part, Megajoules(capacity as u64), text, at + size)
}
