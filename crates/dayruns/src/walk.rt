// A file or a list of entries read up to a place.
ghost use Rattle.std.specs.Prelude.{◌≡◌};
ghost use Rattle.dayruns.specs.Walk.{ended, file_check};

use dayformat::{Counts, HEADER};
use dayrows::Fault;
use units::Refusal;

// What is found so far; where the first fault is, or how far is read; and the rows before. Both are told on a fault too.
#[derive(Clone, Copy)]
pub struct Walk {
    pub found: Result<(), Fault>,
    pub place: usize,
    pub counts: Counts,
}

impl Walk {
    // Nothing may follow the last field.
    pub fn end(self, file: &[u8]) -> Self
        ensures { result ≡ ended file.now self }
    {
        let place = self.place;
        let counts = self.counts;
        if self.found.is_err() {
            return self;
        }
        if file.len() <= place {
            return self;
        }
        if file.len() - place < HEADER {
            return Walk {
                found: Err(Fault::Cut),
                place,
                counts,
            };
        }
        Walk {
            found: Err(Fault::Foreign),
            place,
            counts,
        }
    }

    // The first faulty field, at its first byte.
    pub fn check(self) -> Result<(), Refusal>
        ensures { result ≡ file_check self }
    {
        self.found
            .map_err(|fault| Refusal::at_byte(fault.number(), self.place))
    }
}
