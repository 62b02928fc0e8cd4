// The nodes of a graph in order: each has a label, from which its joins follow (rules.rt).
use crate::rules::keller;
use test_kit::limits::MOST_JOBS;

// Which words are nodes.
// Kept: no plainer as closures: three cases that are matched in one place; as closures they would go through two functions as a type parameter with its clause.
#[derive(Clone, Copy)]
pub enum Keep {
    All,
    Ones(u32),
    BesideZero,
}

fn keeps(keep: Keep, word: u64) -> bool {
    match keep {
        Keep::All => true,
        Keep::Ones(ones) => word.count_ones() == ones,
        Keep::BesideZero => keller(0, word),
    }
}

// A label for each node, as many as there are jobs at the most.
#[derive(Clone, Copy)]
pub struct Labels {
    room: [u64; MOST_JOBS],
    n: usize,
}

// Three points are a line of the plane where both coordinates add up to 0 modulo 3.
fn is_line(a: u64, b: u64, c: u64) -> bool {
    (a / 3 % 3 + b / 3 % 3 + c / 3 % 3) % 3 == 0 && (a % 3 + b % 3 + c % 3) % 3 == 0
}

// How many of 200 nodes are in a group of k, the first ones of one more.
fn group_size(group: u64, k: u64) -> u64 {
    let (Some(size), Some(left)) = (200u64.checked_div(k), 200u64.checked_rem(k)) else {
        return 0;
    };
    size + u64::from(group < left)
}

impl Labels {
    const NONE: Labels = Labels {
        room: [0; MOST_JOBS],
        n: 0,
    };

    // One node more, while there is room.
    fn push(&mut self, label: u64) {
        if self.n < MOST_JOBS {
            self.room[self.n] = label;
            self.n += 1;
        }
    }

    // The labels.
    pub fn list(&self) -> &[u64] {
        self.room.get(..self.n).unwrap_or(&self.room)
    }

    // The kept words below that number, ascending.
    pub fn words(below: u64, keep: Keep) -> Labels {
        let mut labels = Labels::NONE;
        for word in 0..below {
            if keeps(keep, word) {
                labels.push(word);
            }
        }
        labels
    }

    // The affine plane of order 3: its nine points, 3x + y for (x, y), then the three points of each of its twelve lines,
    // by ascending lines. A line is three digits to base 9 that are ascending points of it, and its points are copies.
    pub fn plane() -> Labels {
        let mut labels = Labels::words(9, Keep::All);
        for three in 0u64..729 {
            let (a, b, c) = (three / 81, three / 9 % 9, three % 9);
            if a < b && b < c && is_line(a, b, c) {
                let line = 9 * (three + 1);
                for point in [a, b, c] {
                    labels.push(line.wrapping_add(point));
                }
            }
        }
        labels
    }

    // 200 nodes in k groups, one after the other.
    pub fn groups(k: u64) -> Labels {
        let mut labels = Labels::NONE;
        for group in 0..k {
            for _ in 0..group_size(group, k) {
                labels.push(group);
            }
        }
        labels
    }
}
