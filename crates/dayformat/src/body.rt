// What a body holds: so many numbers of one kind, then so many of the next.
ghost use Rattle.std.specs.Prelude.{◌≡◌};
ghost use Rattle.dayformat.specs.Format.{body, column_in};

use crate::form::Tag;

// A number of a field: how many bytes spell it, and its bounds.
#[derive(Clone, Copy)]
pub struct Column {
    pub width: usize,
    pub low: usize,
    pub high: usize,
}

// So many numbers of one kind.
#[derive(Clone, Copy)]
pub struct Several {
    pub many: usize,
    pub kind: Column,
}

const NONE: Column = Column {
    width: 0,
    low: 0,
    high: 0,
};

pub const SIDE: Column = Column {
    width: 1,
    low: 0,
    high: 1,
};

pub const NAME: Column = Column {
    width: 2,
    low: 1,
    high: 65_535,
};

pub const NUMBER: Column = Column {
    width: 4,
    low: 0,
    high: 4_294_967_295,
};

pub const GIGAJOULES: Column = Column {
    width: 4,
    low: 0,
    high: 1_000_000,
};

pub const HOUR: Column = Column {
    width: 4,
    low: 0,
    high: 100_000_000,
};

pub const BACKHAUL: Column = Column {
    width: 4,
    low: 0,
    high: 2_400_000_000,
};

// A meter's hours: 11 delivered ones of yesterday, 24 delivered, 24 received.
pub const METER_HOURS: usize = 11 + 24 + 24;

fn body_of(tag: Tag) -> &'static [Several]
    ensures { result.now ≡ body tag }
{
    match tag {
        Tag::Head => &[
            Several {
                many: 1,
                kind: NUMBER,
            },
            Several {
                many: 2,
                kind: GIGAJOULES,
            },
        ],
        Tag::Shipper => &[
            Several {
                many: 1,
                kind: NAME,
            },
            Several {
                many: 5,
                kind: GIGAJOULES,
            },
        ],
        Tag::Point => &[
            Several {
                many: 1,
                kind: SIDE,
            },
            Several {
                many: 1,
                kind: NAME,
            },
            Several {
                many: 1,
                kind: HOUR,
            },
        ],
        Tag::Entry => &[
            Several {
                many: 1,
                kind: SIDE,
            },
            Several {
                many: 2,
                kind: NAME,
            },
            Several {
                many: 1,
                kind: HOUR,
            },
        ],
        Tag::Meter => &[
            Several {
                many: 1,
                kind: NAME,
            },
            Several {
                many: 2,
                kind: GIGAJOULES,
            },
            Several {
                many: METER_HOURS,
                kind: HOUR,
            },
            Several {
                many: 4,
                kind: GIGAJOULES,
            },
            Several {
                many: 2,
                kind: BACKHAUL,
            },
        ],
        Tag::Excused => &[
            Several {
                many: 1,
                kind: NAME,
            },
            Several {
                many: METER_HOURS,
                kind: NUMBER,
            },
        ],
    }
}

// The kind of a body's number, counted from 0.
pub fn column_at(tag: Tag, place: usize) -> Column
    ensures { result ≡ column_in (body tag) place }
{
    let mut left = place;
    for several in body_of(tag) {
        if left < several.many {
            return several.kind;
        }
        left -= several.many;
    }
    NONE
}
