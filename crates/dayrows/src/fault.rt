// What a field is refused by.
ghost use Rattle.std.specs.Prelude.{◌≡◌};
ghost use Rattle.dayrows.specs.Fault.{number};

// The file ends within the field; another tag or length; a number beyond its bound or its cap, a row too many, an entry of the other
// side; a key that does not rise, or names something not listed; a schedule without its MDQ.
#[derive(Clone, Copy)]
pub enum Fault {
    Cut,
    Foreign,
    Beyond,
    Key,
    Mdq,
    // Any other number: a `Walk` can be made by hand, with any. No field is refused by it.
    Other(u8),
}

impl Fault {
    // 01's number.
    pub fn number(self) -> u8
        ensures { result ≡ number self }
    {
        match self {
            Fault::Cut => 1,
            Fault::Foreign => 2,
            Fault::Beyond => 3,
            Fault::Mdq => 4,
            Fault::Key => 5,
            Fault::Other(number) => number,
        }
    }
}
