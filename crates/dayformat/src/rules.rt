// What a row names, which of its numbers are an MDQ and its schedule, and which are capped by another row's.
ghost use Rattle.std.specs.Prelude.{◌≡◌};
ghost use Rattle.dayformat.specs.Format.{◌is_a◌, names, ◌for◌, mdqs, cap, filled_up};

use crate::body::METER_HOURS;
use crate::form::Tag;

// The place of a key in a row, and the tag of the rows that list it.
#[derive(Clone, Copy)]
pub struct Name {
    pub place: usize,
    pub tag: Tag,
}

// The place of an MDQ in a row, and that of its schedule.
#[derive(Clone, Copy)]
pub struct Pair {
    pub mdq: usize,
    pub schedule: usize,
}

// So many numbers of a row from a place on, capped by as many from another place on of the row that its first name names.
#[derive(Clone, Copy)]
pub struct Cap {
    pub many: usize,
    pub place: usize,
    pub under: usize,
}

// How many names a row has at most. What fills up fewer says nothing: the head's key is empty.
// Names and MDQs stay arrays of one length, filled up: dayruns reads both places, which a slice would make cases by its length.
pub const NAMES: usize = 2;

const NO_NAME: Name = Name {
    place: 0,
    tag: Tag::Head,
};

pub fn names_of(tag: Tag) -> [Name; NAMES]
    ensures { result ≡ filled_up 2 (0 is_a Tag.Head) (names tag) }
{
    match tag {
        Tag::Head => [NO_NAME, NO_NAME],
        Tag::Shipper => [NO_NAME, NO_NAME],
        Tag::Point => [NO_NAME, NO_NAME],
        Tag::Entry => [
            Name {
                place: 0,
                tag: Tag::Point,
            },
            Name {
                place: 2,
                tag: Tag::Shipper,
            },
        ],
        Tag::Meter => [
            Name {
                place: 0,
                tag: Tag::Shipper,
            },
            NO_NAME,
        ],
        Tag::Excused => [
            Name {
                place: 0,
                tag: Tag::Meter,
            },
            NO_NAME,
        ],
    }
}

// How many MDQs a row has at most. What fills up fewer says nothing: no number is without itself.
pub const MDQS: usize = 2;

const NO_PAIR: Pair = Pair {
    mdq: 0,
    schedule: 0,
};

pub fn mdqs_of(tag: Tag) -> [Pair; MDQS]
    ensures { result ≡ filled_up 2 (0 for 0) (mdqs tag) }
{
    match tag {
        Tag::Head => [NO_PAIR, NO_PAIR],
        Tag::Shipper => [
            Pair {
                mdq: 1,
                schedule: 3,
            },
            Pair {
                mdq: 2,
                schedule: 4,
            },
        ],
        Tag::Point => [NO_PAIR, NO_PAIR],
        Tag::Entry => [NO_PAIR, NO_PAIR],
        Tag::Meter => [NO_PAIR, NO_PAIR],
        Tag::Excused => [NO_PAIR, NO_PAIR],
    }
}

const NO_CAP: Cap = Cap {
    many: 0,
    place: 0,
    under: 0,
};

pub fn cap_of(tag: Tag) -> Cap
    ensures { result ≡ cap tag }
{
    match tag {
        Tag::Head => NO_CAP,
        Tag::Shipper => NO_CAP,
        Tag::Point => NO_CAP,
        Tag::Entry => NO_CAP,
        Tag::Meter => NO_CAP,
        Tag::Excused => Cap {
            many: METER_HOURS,
            place: 1,
            under: 3,
        },
    }
}
