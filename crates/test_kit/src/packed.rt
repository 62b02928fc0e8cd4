// Tables packed as the search packs them, for the tests of what works on packed rows.
ghost use Rattle.std.specs.Prelude.{◌≡◌, ◌*◌, ◌≤◌, ◌<◌, length};
ghost use Rattle.sets.specs.Words.{jobs};
ghost use Rattle.rows.specs.Rows.{Since};

use crate::limits::{MOST_JOBS, SET_WORDS, TABLE_WORDS};
use crate::plain::Table;
use rows::pack::{pack, width_of};
use rows::packed::Rows;

// How many words a set has where there are n jobs: one at the least, and four where n is too many.
pub fn width_for(n: usize) -> usize
    ensures { (1 ≤ result) × (result ≤ 4) × (n ≤ 256 → n ≤ 64 * result) }
{
    if n == 0 {
        return 1;
    }
    if MOST_JOBS < n {
        return SET_WORDS;
    }
    width_of(n)
}

// The word of the set's lowest job; the first where it is empty.
// Kept: tried by `position`, and the proof of `returns` did not close: from the run of calls that `position` promises the search does not come to `Since`, and the loop's invariant says it in a line.
pub fn low_of(part: &[u64]) -> usize
    requires { 1 ≤ length part.now }
    ensures { (result < length part.now) × Since result (jobs part.now) }
{
    for (q, word) in part.iter().enumerate() {
        if *word != 0 {
            return q;
        }
    }
    0
}

// The packed rows of a table's first jobs, in room for the row of every job.
#[derive(Clone, Copy)]
pub struct Packed {
    pub words: [u64; TABLE_WORDS],
    pub width: usize,
    ghost narrow: { (1 ≤ width) × (width ≤ 4) },
}

impl Packed {
    // The first n rows. What lies past them means nothing, nor does what room holds at first.
    pub fn of(t: &Table, n: usize) -> Packed {
        let mut words = [u64::MAX; TABLE_WORDS];
        let width = width_for(n);
        if n <= MOST_JOBS {
            let table = t.words(n);
            pack(&table[..SET_WORDS * n], n, width, &mut words[..width * n]);
        }
        Packed { words, width }
    }

    pub fn rows(&self) -> Rows<'_>
        ensures { (result.words.now ≡ self.now.words) × (result.width ≡ self.now.width) }
    {
        Rows {
            words: &self.words,
            width: self.width,
        }
    }
}
