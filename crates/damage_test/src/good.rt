// Good night files: a symmetric table by chance, with or without held jobs.
use crate::layout::{Draft, FLAGS, length};
use test_kit::limits::MOST_JOBS;
use test_kit::noise::{below, draw};

// The sizes, the large ones seldom.
fn size(seed: u64) -> usize {
    match below(seed, 1, 64) {
        0 => MOST_JOBS,
        1..=2 => 100,
        3..=6 => 65,
        7..=10 => 64,
        11..=19 => 20,
        20..=28 => 9,
        29..=37 => 8,
        38..=46 => 7,
        47..=54 => 3,
        55..=60 => 1,
        _ => 0,
    }
}

// Whether there is a hold list: only where a job can be held.
fn is_listed(n: usize, seed: u64) -> bool {
    n != 0 && below(seed, 2, 2) == 1
}

// The mark and the version.
const FIRST_BYTES: [u8; 4] = [80, 82, 83, 1];

fn header(draft: &mut Draft, listed: bool) {
    draft.room[..4].copy_from_slice(&FIRST_BYTES);
    draft.put_jobs(draft.n);
    draft.put_byte(FLAGS, u8::from(listed));
}

// So many quarters of the pairs fit.
// Kept: no plainer by the plain tables' join_pairs: the bits lie in a file's bytes, by rows of another length, and each row has a seed of its own.
fn rows(draft: &mut Draft, seed: u64, quarters: usize) {
    for r in 0..draft.n {
        let row_seed = draw(seed, r as u64);
        for c in 0..r {
            if below(row_seed, c as u64, 4) < quarters {
                draft.set(r, c);
                draft.set(c, r);
            }
        }
    }
}

// At least one job is held.
fn holds(draft: &mut Draft, seed: u64) {
    let n = draft.n;
    draft.set(n, below(seed, MOST_JOBS as u64, n));
    for c in 0..n {
        if below(seed, c as u64, 4) == 0 {
            draft.set(n, c);
        }
    }
}

// A good file.
pub fn build(seed: u64) -> Draft {
    let n = size(seed);
    let listed = is_listed(n, seed);
    let mut draft = Draft::new(n);
    draft.length = length(n, listed);
    header(&mut draft, listed);
    rows(&mut draft, draw(seed, 3), below(seed, 4, 5));
    if listed {
        holds(&mut draft, draw(seed, 5));
    }
    draft
}
