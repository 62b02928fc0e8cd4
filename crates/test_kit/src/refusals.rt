// A refusal by its number in document 01's table, to be compared and printed.
use sets::places::Place;
use sets::refusal::Refusal;
use std::fmt;

// The number, and what comes back with it: nothing, a value, or row and column of a place.
#[derive(Clone, Copy, PartialEq, Eq, Debug)]
pub enum Refused {
    Alone(usize),
    WithOne(usize, usize),
    At(usize, usize, usize),
}

impl Refused {
    pub fn number(self) -> usize {
        match self {
            Refused::Alone(number) => number,
            Refused::WithOne(number, _) => number,
            Refused::At(number, _, _) => number,
        }
    }
}

impl From<Refusal> for Refused {
    fn from(refusal: Refusal) -> Refused {
        match refusal {
            Refusal::Alone(fault) => Refused::Alone(fault.number()),
            Refusal::WithOne(fault, value) => Refused::WithOne(fault.number(), value),
            Refusal::At(fault, Place { row, column }) => Refused::At(fault.number(), row, column),
        }
    }
}

// As the sheet prints it: the number and the values, a space between.
impl fmt::Display for Refused {
    fn fmt<W: fmt::Write>(&self, f: &mut fmt::Formatter<W>) -> fmt::Result {
        match self {
            Refused::Alone(number) => write!(f, "{number}"),
            Refused::WithOne(number, value) => write!(f, "{number} {value}"),
            Refused::At(number, row, column) => write!(f, "{number} {row} {column}"),
        }
    }
}
