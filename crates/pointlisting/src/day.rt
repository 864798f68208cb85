// What a day's points are read from.
ghost use Rattle.pointlisting.specs.Private.{Readable};

use dayformat::Day;

// A sound day, its numbers, and its entries parted by side.
#[derive(Clone, Copy)]
pub struct Points<'a> {
    pub day: Day,
    pub numbers: &'a [usize],
    pub receipt: &'a [u8],
    pub delivery: &'a [u8],
    ghost readable: { Readable day numbers.now receipt.now delivery.now },
}
