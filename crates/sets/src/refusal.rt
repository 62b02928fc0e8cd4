// What comes back with a refusal: which fault it was, with none or one value, or with a place.
// A new fault is a case here, and a rule in specs/ that gives its number: nothing else lists them.
ghost use Rattle.std.specs.Prelude.{◌≡◌};
ghost use Rattle.sets.specs.Refusals.{number_of};

use crate::places::Place;

// The rows of document 01's table of refusals, with their numbers.
#[derive(Clone, Copy, PartialEq, Eq, Debug)]
pub enum Fault {
    TooManyJobs = 1,
    TableLength = 2,
    HoldLength = 3,
    SetLength = 4,
    BeyondJobs = 5,
    SelfPair = 6,
    OneWay = 7,
    ShortFile = 21,
    WrongMark = 22,
    WrongVersion = 23,
    UnknownFlag = 24,
    WrongLength = 25,
    EmptyHolds = 26,
    ShortOutput = 27,
    PinLength = 40,
    PinHeld = 41,
    PinsApart = 42,
}

impl Fault {
    pub fn number(self) -> usize
        ensures { result ≡ number_of self }
    {
        self as usize
    }
}

// The fault alone, with one value, or with the place where it was found.
#[derive(Clone, Copy, PartialEq, Eq, Debug)]
pub enum Refusal {
    Alone(Fault),
    WithOne(Fault, usize),
    At(Fault, Place),
}
