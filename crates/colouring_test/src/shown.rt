// What Colour hands back, looked at by itself: the numbers below k colour the candidates, each is in use, and every other job has the mark.
use super::lent::{Classes, class_at};
use test_kit::limits::MOST_JOBS;
use test_kit::plain::{Set, Table};

// Whether a job of P that a fits is in that class too.
fn clashes(t: &Table, p: &Set, classes: &Classes, number: usize, a: usize) -> bool {
    (0..MOST_JOBS).any(|b| p.has(b)
        && a != b
        && class_at(classes, b) == Some(number)
        && t.fits(a, b))
}

fn is_numbered(t: &Table, p: &Set, classes: &Classes, k: usize, j: usize) -> bool {
    match class_at(classes, j) {
        Some(number) => p.has(j) && number < k && !clashes(t, p, classes, number, j),
        None => !p.has(j),
    }
}

fn is_used(p: &Set, classes: &Classes, number: usize) -> bool {
    (0..MOST_JOBS).any(|j| p.has(j) && class_at(classes, j) == Some(number))
}

pub fn is_colouring(t: &Table, p: &Set, classes: &Classes, k: usize) -> bool {
    (0..MOST_JOBS).all(|j| is_numbered(t, p, classes, k, j))
        && (0..k).all(|number| is_used(p, classes, number))
}
