// Colour: why no run is larger. The candidates of the start in classes of which no two jobs fit: a run has at most one job of each.
#![tactic(auto)]

pub mod greedy;
mod number;

ghost use Rattle.question.specs.Question.{asked};
ghost use Rattle.colouring.specs.Colour.{ColourPromise};

use crate::number::number_classes;
use question::check::check_question;
use question::start::start_of;
use sets::jobset::MOST_JOBS;
use sets::refusal::Refusal;

// The greedy classes of the start's candidates: how many there are, and in the lent list of 256 numbers the class of each job, NO_CLASS for a job that is no
// candidate. The pins come to the classes: no run is larger than both together. Nothing is asked of what is lent: what is wrong with it is refused, and the
// classes are as they came.
pub fn colour(
    n: usize,
    table: &[u64],
    holds: &[u64],
    pins: &[u64],
    classes: &mut [u16],
) -> Result<usize, Refusal>
    ensures { ColourPromise (asked n table.now holds.now pins.now) classes.old result classes.new }
{
    check_question(n, table, holds, pins, classes.len() == MOST_JOBS)?;
    let start = start_of(n, table, holds, pins);
    Ok(number_classes(n, table, start.candidates, classes))
}
