// Pair tables: filled from labels, and looked at bit by bit.
use crate::rules::{Rule, joined};
use test_kit::limits::MOST_JOBS;
use test_kit::tables::{has, put};

// Kept: no plainer as one function with the plain tables' join_pairs: here words are filled, one way, from every ordered pair of labels, so that a rule that is not the same both ways shows.
pub fn fill(table: &mut [u64], labels: &[u64], rule: Rule) {
    for (r, a) in labels.iter().enumerate() {
        for (c, b) in labels.iter().enumerate() {
            if r != c && joined(rule, *a, *b) {
                put(table, r, c);
            }
        }
    }
}

// Each edge is counted once, from its lower node.
pub fn edges(table: &[u64]) -> usize {
    (0..MOST_JOBS).fold(0usize, |edges, a| edges.wrapping_add(edges_up(table, a)))
}

fn edges_up(table: &[u64], a: usize) -> usize {
    (0..MOST_JOBS)
        .filter(|b| a < *b && has(table, a, *b))
        .count()
}

pub fn members(set: &[u64]) -> usize {
    (0..MOST_JOBS).filter(|a| has(set, 0, *a)).count()
}

// Whether a node is not in the set, or is joined to every other one that is.
fn is_joined(table: &[u64], set: &[u64], a: usize) -> bool {
    !has(set, 0, a) || (0..MOST_JOBS).all(|b| a == b || !has(set, 0, b) || has(table, a, b))
}

pub fn is_clique(table: &[u64], set: &[u64]) -> bool {
    (0..MOST_JOBS).all(|a| is_joined(table, set, a))
}
