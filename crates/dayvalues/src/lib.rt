// A day's block of numbers by what they are, opened: a column of its shippers, a row of its shippers or points.
#![tactic(auto)]

mod column;
mod points;
mod row;
mod shippers;

pub use column::{ShipperColumn, check_column, shipper_column};
pub use points::{Point, point_at};
pub use row::{check_row, number_at, row_beginning};
pub use shippers::shipper_at;
