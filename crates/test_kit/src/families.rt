// Generated plain tables and sets.
use crate::limits::MOST_JOBS;
use crate::noise::Chance;
use crate::plain::{Set, Table};
use std::fmt;

// Which pairs of a table fit.
#[derive(Clone, Copy)]
pub enum Family {
    Percent(usize),
    All,
    Nothing,
    // All but 0 with 1, 2 with 3, and so on.
    AllButPairs,
    Ring,
    // All but those with job 0.
    AllButOne,
    // Those within the first third, and those within the rest.
    TwoSides,
    // In the first quarter those of different groups of four; after it each job with the few before it: where the filter takes the last, it takes one after the other.
    Chain,
}

// Each family, and the state that its tables are made from.
pub const FAMILIES: [(Family, u64); 18] = [
    (Family::Percent(10), 10),
    (Family::Percent(20), 20),
    (Family::Percent(30), 30),
    (Family::Percent(40), 40),
    (Family::Percent(50), 50),
    (Family::Percent(60), 60),
    (Family::Percent(70), 70),
    (Family::Percent(80), 80),
    (Family::Percent(90), 90),
    (Family::Percent(97), 97),
    (Family::Percent(99), 99),
    (Family::All, 101),
    (Family::Nothing, 102),
    (Family::AllButPairs, 103),
    (Family::Ring, 104),
    (Family::AllButOne, 105),
    (Family::TwoSides, 106),
    (Family::Chain, 107),
];

// The sizes of the tables that are made of a family.
pub const SIZES: [usize; 13] = [1, 2, 5, 17, 40, 63, 64, 65, 100, 128, 200, 255, MOST_JOBS];

impl fmt::Display for Family {
    fn fmt<W: fmt::Write>(&self, f: &mut fmt::Formatter<W>) -> fmt::Result {
        match self {
            Family::Percent(percent) => write!(f, "{percent} percent fit"),
            Family::All => f.write_str("all fit"),
            Family::Nothing => f.write_str("none fit"),
            Family::AllButPairs => f.write_str("all but a perfect matching fit"),
            Family::Ring => f.write_str("ring"),
            Family::AllButOne => f.write_str("all but one job fit"),
            Family::TwoSides => f.write_str("two sides"),
            Family::Chain => f.write_str("chain"),
        }
    }
}

fn in_chain(n: usize, a: usize, b: usize) -> bool {
    if a < n / 4 {
        return a % 4 != b % 4;
    }
    a <= b.wrapping_add(n / 16).wrapping_add(1)
}

fn in_ring(n: usize, a: usize, b: usize) -> bool {
    b.wrapping_add(1) == a || b == 0 && a.wrapping_add(1) == n
}

// Whether a fits b, a lower job.
fn is_pair(family: Family, n: usize, a: usize, b: usize, chance: Chance) -> bool {
    match family {
        Family::Percent(percent) => chance.is_in(percent),
        Family::All => true,
        Family::Nothing => false,
        Family::AllButPairs => a / 2 != b / 2,
        Family::Ring => in_ring(n, a, b),
        Family::AllButOne => b != 0,
        Family::TwoSides => (a < n / 3) == (b < n / 3),
        Family::Chain => in_chain(n, a, b),
    }
}

// Fills a clear table of n jobs.
pub fn make_table(t: &mut Table, family: Family, n: usize, chance: &mut Chance) {
    t.join_pairs(n, |a, b| {
        chance.turn();
        is_pair(family, n, a, b, *chance)
    });
}

// About that many of a hundred of the first n jobs.
pub fn make_set(n: usize, percent: usize, chance: &mut Chance) -> Set {
    let mut set = Set::EMPTY;
    for j in 0..n {
        chance.turn();
        set.put(j, chance.is_in(percent));
    }
    set
}

// The jobs that x fits and that many that it misses, as far as there are.
pub fn make_near(t: &Table, within: &Set, x: usize, misses: usize) -> Set {
    let mut set = Set::EMPTY;
    let mut left = misses;
    for z in 0..MOST_JOBS {
        if within.has(z) && z != x {
            if t.fits(x, z) {
                set.put(z, true);
            } else if 0 < left {
                set.put(z, true);
                left -= 1;
            }
        }
    }
    set
}
