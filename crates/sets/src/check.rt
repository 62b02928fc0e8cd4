// Check a set against a table.
ghost use Rattle.sets.specs.Check.{CheckPromise};

use crate::jobset::{SET_WORDS, from_words};
use crate::places::Place;
use crate::refusal::{Fault, Refusal};
use crate::table::Table;

#[derive(Clone, Copy, PartialEq, Eq, Debug)]
pub enum Checked {
    Clique { size: usize },
    Misfit { first: usize, second: usize },
}

// The size if the set is a clique of the table's jobs, else the first pair that does not fit.
pub fn check_set(n: usize, table: &[u64], set: &[u64]) -> Result<Checked, Refusal>
    ensures { CheckPromise n table.now set.now result }
{
    let table = Table::of(n, table)?;
    if set.len() != SET_WORDS {
        return Err(Refusal::Alone(Fault::SetLength));
    }
    let asked = from_words(set);
    table.check(asked)?;
    Ok(match table.first_misfit(asked) {
        Some(Place { row, column }) => Checked::Misfit {
            first: row,
            second: column,
        },
        None => Checked::Clique { size: asked.size() },
    })
}
