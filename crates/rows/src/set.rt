// A set of jobs as a part of lent room: job j is bit j % 64 of word j / 64, and the part has as many words as the night is wide.
// Each contract says what a function means for the ascending list of the set's jobs. The words before `low` are known to be empty and left out:
// the candidates of a visit lie from their lowest job on.
// Kept: a set and its `low` side by side, and the lengths of two sets in the clauses. Callers lend parts of frames, and a type that holds these is no plainer: it would be made anew at each call.
ghost use Rattle.std.specs.Prelude.{◌≡◌, ◌+◌, ◌*◌, ◌≤◌, ◌<◌, Bool, eqb, length};
ghost use Rattle.graphs.specs.Jobs.{has, both, minus, without, lowest};
ghost use Rattle.sets.specs.Words.{number, jobs, added};
ghost use Rattle.rows.specs.Rows.{Since, onward};
ghost use Rattle.rows.specs.Sizes.{KeepsBits, kept};

use crate::word::WordJobs;
use sets::jobset::{MOST_JOBS, WORD_JOBS};

// Job j's bit in word q of a set; 0 where j is in another word.
pub fn bit_in(j: usize, q: usize) -> u64
    ensures { result ≡ number (eqb j) (q * 64) 64 }
{
    if j / WORD_JOBS == q {
        return 1u64 << (j % WORD_JOBS);
    }
    0
}

// How many ones the operation leaves of word q: the jobs of the word that it keeps.
#[inline]
fn ones_in<F: Fn(u64, u64) -> u64>(a: &[u64], b: &[u64], q: usize, of: &F) -> usize
    requires callable { F.IsAlwaysCallable of.now }
    requires q_in_bounds { (q < length a.now) × (length a.now ≤ 4) × (length b.now ≡ length a.now) }
    ensures few { result ≤ 64 }
    ensures counted { (t : Bool → Bool) → KeepsBits (F.post of.now) t → length (kept t (onward (jobs a.now) q) (jobs b.now)) ≡ result + length (kept t (onward (jobs a.now) (q + 1)) (jobs b.now)) }
{
    of(a[q], b[q]).count_ones() as usize
}

// How many jobs of the first set the operation keeps. This is the dearest place of the search.
// Kept: each number of words written out. Tried: a loop takes 1.06 of the instructions on the DIMACS tables (hamming8-4 1.08), zipped iterators 1.07 (keller4 1.09).
#[inline]
fn size_of<F: Fn(u64, u64) -> u64>(a: &[u64], b: &[u64], low: usize, of: F) -> usize
    requires callable { F.IsAlwaysCallable of }
    requires low_in_bounds { (low < length a.now) × (length a.now ≤ 4) × (length b.now ≡ length a.now) }
    requires since { Since low (jobs a.now) }
    ensures { (t : Bool → Bool) → KeepsBits (F.post of) t → result ≡ length (kept t (jobs a.now) (jobs b.now)) }
{
    match a.len() - low {
        1 => ones_in(a, b, low, &of),
        2 => ones_in(a, b, low, &of) + ones_in(a, b, low + 1, &of),
        3 => { ones_in(a, b, low, &of) + ones_in(a, b, low + 1, &of) + ones_in(a, b, low + 2, &of) }
        _ => {
            ones_in(a, b, 0, &of)
                + ones_in(a, b, 1, &of)
                + ones_in(a, b, 2, &of)
                + ones_in(a, b, 3, &of)
        }
    }
}

// How many jobs are in both sets.
pub fn size_of_both(a: &[u64], b: &[u64], low: usize) -> usize
    requires low_in_bounds { (low < length a.now) × (length a.now ≤ 4) × (length b.now ≡ length a.now) }
    requires since { Since low (jobs a.now) }
    ensures { result ≡ length (both (jobs a.now) (jobs b.now)) }
{
    size_of(a, b, low, |word, other| word & other)
}

// How many jobs of the first set are not in the second.
pub fn size_of_minus(a: &[u64], b: &[u64], low: usize) -> usize
    requires low_in_bounds { (low < length a.now) × (length a.now ≤ 4) × (length b.now ≡ length a.now) }
    requires since { Since low (jobs a.now) }
    ensures { result ≡ length (minus (jobs a.now) (jobs b.now)) }
{
    size_of(a, b, low, |word, other| word & !other)
}

// The lowest job of the set; 256 where it is empty.
// Kept: no Option, since `lowest`, which the contract goes by, is 256 there.
pub fn lowest_of(a: &[u64], low: usize) -> usize
    requires a_len_bound { length a.now ≤ 4 }
    requires since { Since low (jobs a.now) }
    ensures { result ≡ lowest (jobs a.now) }
{
    for q in low..a.len() {
        if let Some(job) = WordJobs::of(a, q).next() {
            return job;
        }
    }
    MOST_JOBS
}

// Whether job j is in the set.
pub fn has_in(a: &[u64], j: usize) -> bool
    requires { length a.now ≤ 4 }
    ensures { result ≡ has (jobs a.now) j }
{
    match a.get(j / WORD_JOBS) {
        Some(word) => (*word >> (j % WORD_JOBS)) % 2 == 1,
        None => false,
    }
}

// Job j joins the set.
pub fn put_in(a: &mut [u64], j: usize)
    requires { j < 64 * length a.old }
    ensures { jobs a.new ≡ added j (jobs a.old) }
{
    a[j / WORD_JOBS] |= 1u64 << (j % WORD_JOBS);
}

// Job j leaves the set.
pub fn take_out(a: &mut [u64], j: usize)
    requires { j < 64 * length a.old }
    ensures { jobs a.new ≡ without j (jobs a.old) }
{
    a[j / WORD_JOBS] &= !(1u64 << (j % WORD_JOBS));
}

// The second set becomes the first.
// Kept: a loop. By `copy_from_slice`, which goes by raw places, the walk's copy of C is a call of `memmove`, and the archive for C needs that from outside.
pub fn copy(a: &[u64], b: &mut [u64])
    requires { length b.old ≡ length a.now }
    ensures { b.new ≡ a.now }
{
    for (q, word) in b.iter_mut().enumerate() {
        *word = a[q];
    }
}
