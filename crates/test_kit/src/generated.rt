// Generated plain tables, holds and pins.
use crate::noise::below;
use crate::plain::{Graph, Set, Table};

// What a table is made from: how many jobs, how many pairs in a hundred fit, how many jobs in a hundred are held, and a seed.
// With a ring the jobs stand in rings of that many, in each of which just the neighbours fit: there the bounds are loose.
#[derive(Clone, Copy)]
pub struct Recipe {
    pub n: usize,
    pub fitting: u64,
    pub held: u64,
    pub ring: Option<usize>,
    pub seed: u64,
}

// So many jobs are drawn for pins, one after the other.
const DRAWS: u64 = 24;

// A number that looks like chance, made from a number.
fn mixed(x: u64) -> u64 {
    let a = (!x).wrapping_add(x << 21);
    let b = a ^ (a >> 24);
    let c = b.wrapping_add(b << 3).wrapping_add(b << 8);
    let d = c ^ (c >> 14);
    let e = d.wrapping_add(d << 2).wrapping_add(d << 4);
    let f = e ^ (e >> 28);
    f.wrapping_add(f << 31)
}

// A number made from two.
fn mixed_with(x: u64, y: u64) -> u64 {
    mixed(x.wrapping_add(y))
}

// Whether (a, b) is one of those drawn, so many in a hundred.
fn is_drawn(seed: u64, a: usize, b: usize, of_hundred: u64) -> bool {
    mixed_with(mixed_with(seed, a as u64), b as u64) % 100 < of_hundred
}

// Whether two jobs of one ring are neighbours.
fn are_neighbours(ring: usize, low: usize, high: usize) -> bool {
    let apart = high.wrapping_sub(low);
    apart == 1 || apart.wrapping_add(1) == ring
}

impl Recipe {
    // The recipe of that number among those alike. Every other one has rings, of 5 or 7.
    pub fn new(n: usize, fitting: u64, held: u64, number: u64) -> Recipe {
        let kind = mixed_with(mixed(n as u64), fitting);
        let ring = match number % 4 {
            1 => Some(5),
            3 => Some(7),
            _ => None,
        };
        Recipe {
            n,
            fitting,
            held,
            ring,
            seed: mixed_with(mixed_with(kind, held), number),
        }
    }

    // Whether two jobs are to fit.
    fn is_pair(self, low: usize, high: usize) -> bool {
        if let Some(ring) = self.ring
            && low.checked_div(ring) == high.checked_div(ring)
        {
            return are_neighbours(ring, low, high);
        }
        is_drawn(self.seed, low, high, self.fitting)
    }

    // Writes the pairs into a clear table.
    pub fn fill(self, table: &mut Table) {
        table.join_pairs(self.n, |high, low| self.is_pair(low, high));
    }

    // The held jobs. The draw of (j, j), which is no pair, says whether j is one.
    pub fn holds(self) -> Set {
        Set::of(self.n, |j| is_drawn(self.seed, j, j, self.held))
    }
}

// Whether j may be one more of the wanted pins: it is not held, and fits those before it.
fn may_pin(graph: Graph<'_>, held: &Set, pins: &Set, wanted: usize, j: usize) -> bool {
    j < graph.n && pins.size(graph.n) < wanted && !held.has(j) && graph.fits_each(pins, j)
}

// Up to so many unheld jobs that all fit, as they are drawn.
pub fn fitting_pins(graph: Graph<'_>, held: &Set, wanted: usize, seed: u64) -> Set {
    let mut pins = Set::EMPTY;
    for turn in 0..DRAWS {
        let j = below(seed, turn, graph.n);
        if may_pin(graph, held, &pins, wanted, j) {
            pins.put(j, true);
        }
    }
    pins
}
