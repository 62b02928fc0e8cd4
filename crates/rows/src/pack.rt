// Between the four words of the door and the words of the night.
ghost use Rattle.std.specs.Prelude.{◌≡◌, ◌*◌, ◌≤◌, length};
ghost use Rattle.sets.specs.Words.{jobs};
ghost use Rattle.rows.specs.Rows.{width_of, SetWithin, Packed};

use sets::jobset::{JobSet, SET_WORDS, WORD_JOBS};

// How many words a set of n jobs has.
#[tactic(auto, unfolding(crate::specs::Rows::width_of))]
pub fn width_of(n: usize) -> usize
    requires { n ≤ 256 }
    ensures { result ≡ width_of n }
{
    n.div_ceil(WORD_JOBS)
}

// The first words of each row of the table, side by side.
pub fn pack(table: &[u64], n: usize, width: usize, rows: &mut [u64])
    requires n_bound { (n ≤ 256) × (width ≤ 4) }
    requires table_len { (length table.now ≡ 4 * n) × (length rows.old ≡ width * n) }
    ensures { Packed width n table.now rows.new }
{
    // Kept: rows by their numbers. Chunks of `width` words are no plainer: they need a case of their own for a night of no jobs, whose width is 0.
    for r in 0..n {
        let from = SET_WORDS * r;
        let to = width * r;
        rows[to..to + width].copy_from_slice(&table[from..from + width]);
    }
}

// The first words of a set.
// Kept: no From here and in `widen`. How many words the part has is not in its type, and the set must lie within them.
pub fn narrow(set: JobSet, part: &mut [u64])
    requires part_len_bound { length part.old ≤ 4 }
    requires set_within { SetWithin (length part.old) (jobs set.words) }
    ensures { jobs part.new ≡ jobs set.words }
{
    part.copy_from_slice(&set.words[..part.len()]);
}

// The set in four words, those past the part empty.
pub fn widen(part: &[u64]) -> JobSet
    requires { length part.now ≤ 4 }
    ensures { jobs result.words ≡ jobs part.now }
{
    let mut words = [0u64; 4];
    words[..part.len()].copy_from_slice(part);
    JobSet { words }
}
