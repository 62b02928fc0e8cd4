// The list that Colour is lent: before the call it has noise, of which none is a class or the mark, so a number that is not written shows.
use test_kit::limits::{MOST_JOBS, NO_CLASS};

pub type Classes = [u16; MOST_JOBS];

// The class that a number of the list stands for; none where it is the mark.
pub fn class_of(number: u16) -> Option<usize> {
    (number != NO_CLASS).then_some(number as usize)
}

// The class of job j; what is no job has none.
pub fn class_at(classes: &Classes, j: usize) -> Option<usize> {
    class_of(*classes.get(j)?)
}
