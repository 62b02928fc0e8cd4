// The finder: the first place, by row and then column, at which a test holds.
ghost use Rattle.std.specs.Prelude.{◌≡◌, ℕ, Bool, false, [], ◌<◌, MatchOption};
ghost use Rattle.sets.specs.Words.{jobs};
ghost use Rattle.sets.specs.Places.{in_row, first_place, place_of, FoundAt, Decides};
ghost use Rattle.sets.specs.Rules.{numbered};
ghost use Rattle.sets.specs.Refusals.{number_of, verdict_of};

use crate::jobset::JobSet;
use crate::refusal::{Fault, Refusal};

// A place of a table, or of a set that stands for a row.
#[derive(Clone, Copy, PartialEq, Eq, Debug)]
pub struct Place {
    pub row: usize,
    pub column: usize,
}

// The first column of a row at which the test holds.
fn first_in_row<T: Fn(usize, usize) -> bool>(row: usize, columns: usize, test: &T) -> Option<usize>
    requires { (c : ℕ) → c < columns → T.pre test.now row c }
    ensures { (t : ℕ → Bool) → ((c : ℕ) (b : Bool) → c < columns → T.post test.now row c b → b ≡ t c) → MatchOption result ((c : ℕ) → c < columns → t c ≡ false) (FoundAt t columns) }
{
    for column in 0..columns {
        if test(row, column) {
            return Some(column);
        }
    }
    None
}

// The first place, by row and then column, at which the test holds.
pub fn first_place<T: Fn(usize, usize) -> bool>(
    rows: usize,
    columns: usize,
    test: T,
) -> Option<Place>
    requires { (r c : ℕ) → r < rows → c < columns → T.pre test r c }
    ensures { (t : ℕ → ℕ → Bool) → Decides (T.post test) t rows columns → place_of result ≡ first_place t rows columns }
{
    for row in 0..rows {
        if let Some(column) = first_in_row(row, columns, &test) {
            return Some(Place { row, column });
        }
    }
    None
}

// The first place of a set that stands for a row: its lowest job.
pub fn place_in_row(row: usize, mut set: JobSet) -> Option<Place>
    ensures { place_of result ≡ in_row row (jobs set.words) [] }
{
    let column = set.next()?;
    Some(Place { row, column })
}

// The fault with the place where it was found; nothing is refused where there is none.
pub fn none_at(fault: Fault, place: Option<Place>) -> Result<(), Refusal>
    ensures { verdict_of result ≡ numbered (number_of fault) (place_of place) }
{
    match place {
        Some(place) => Err(Refusal::At(fault, place)),
        None => Ok(()),
    }
}
