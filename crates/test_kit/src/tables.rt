// Pair tables and sets as the planner takes them, bit by bit; a set is row 0. What is no job, or past the end, is not there and
// is not written.
use crate::limits::{MOST_JOBS, SET_WORDS, WORD_JOBS};

// Where the word with bit c of row r stands; nowhere where r or c is no job.
fn place(r: usize, c: usize) -> Option<usize> {
    if MOST_JOBS <= r || MOST_JOBS <= c {
        return None;
    }
    Some(SET_WORDS * r + c / WORD_JOBS)
}

fn bit(c: usize) -> u64 {
    1 << (c % WORD_JOBS)
}

// Whether bit c of row r is set.
pub fn has(table: &[u64], r: usize, c: usize) -> bool {
    place(r, c)
        .and_then(|at| table.get(at))
        .is_some_and(|word| word & bit(c) != 0)
}

// The word with bit c of row r.
fn word_of(table: &mut [u64], r: usize, c: usize) -> Option<&mut u64> {
    table.get_mut(place(r, c)?)
}

// Sets bit c of row r.
pub fn put(table: &mut [u64], r: usize, c: usize) {
    if let Some(word) = word_of(table, r, c) {
        *word |= bit(c);
    }
}

fn clear(table: &mut [u64], r: usize, c: usize) {
    if let Some(word) = word_of(table, r, c) {
        *word &= !bit(c);
    }
}

// Lets a and b fit, both ways.
pub fn join(table: &mut [u64], a: usize, b: usize) {
    put(table, a, b);
    put(table, b, a);
}

// Lets a and b not fit, both ways.
pub fn part(table: &mut [u64], a: usize, b: usize) {
    clear(table, a, b);
    clear(table, b, a);
}

// Row r with the first n jobs.
pub fn first_jobs(table: &mut [u64], r: usize, n: usize) {
    for c in 0..n {
        put(table, r, c);
    }
}

// Lets the first n jobs all fit each other.
pub fn full(table: &mut [u64], n: usize) {
    for r in 0..n {
        first_jobs(table, r, n);
        clear(table, r, r);
    }
}

// Lets each of the first n jobs fit the next, and the last the first.
pub fn ring(table: &mut [u64], n: usize) {
    for b in 1..n {
        join(table, b - 1, b);
    }
    if 2 < n {
        join(table, n - 1, 0);
    }
}
