// Search with pins against the plain searches, counted.
use super::pins::{PIN_HELD, PINS_APART, check_pins};
use search::{Searched, search};
use sets::refusal::Refusal;
use std::fmt;
use test_kit::counts::{add, count};
use test_kit::limits::SET_WORDS;
use test_kit::noise::{fill, is_kept};
use test_kit::plain::{Graph, Set};
use test_kit::plain_clique::{Found, is_run, through_all_cliques, through_all_sets};
use test_kit::plain_walk::{State, walk};
use test_kit::refusals::Refused;
use test_kit::tables;

// Up to so many jobs all their sets are gone through.
const FEW_JOBS: usize = 12;

// How many pins were asked about that are not to be refused; how many finished answers are the first largest clique of those listed, and how many another one
// than without the pins; how often N is at most 2q - 1; how many searches were run with budgets from 0 to N + 1, and how many of these agreed with the plain
// walk; how many of them were unfinished, and of these how many sound. How many pins were to be refused; how many were, as held or as not fitting, at the right
// place and with the result as it came.
#[derive(Clone, Copy, Default)]
pub struct Tally {
    asked: usize,
    largest: usize,
    other: usize,
    few: usize,
    searches: usize,
    agreed: usize,
    unfinished: usize,
    sound: usize,
    faults: usize,
    held: usize,
    apart: usize,
}

impl fmt::Display for Tally {
    fn fmt<W: fmt::Write>(&self, f: &mut fmt::Formatter<W>) -> fmt::Result {
        write!(
            f,
            "asked {}; largest {}, another without pins {}",
            self.asked, self.largest, self.other
        )?;
        write!(
            f,
            ", within 2q - 1 {}; searches {}, agreed {}",
            self.few, self.searches, self.agreed
        )?;
        write!(f, "; unfinished {}, sound {}", self.unfinished, self.sound)?;
        write!(
            f,
            "; faults {}, refused 41 {}, 42 {}",
            self.faults, self.held, self.apart
        )
    }
}

// A graph with holds and pins, and its table as Search takes it; with a seed for what is in the lent result before.
#[derive(Clone, Copy)]
pub struct Night<'a> {
    pub graph: Graph<'a>,
    pub table: &'a [u64],
    pub held: &'a Set,
    pub pins: &'a Set,
    pub seed: u64,
}

// What Search answered, and the words of the lent result after.
#[derive(Clone, Copy)]
struct Said {
    answer: Result<Searched, Refusal>,
    words: [u64; SET_WORDS],
}

impl Said {
    // Whether this is the answer, with the words of that set.
    fn is(&self, answer: Searched, set: &Set) -> bool {
        self.answer == Ok(answer) && self.words == set.words()
    }
}

// The first largest of the cliques that hold every pin, found among all sets; and q, the number of cliques inside P.
fn among_sets(night: Night<'_>, p: &Set) -> Found {
    let n = night.graph.n;
    let inside = through_all_sets(night.graph, &Set::of(n, |j| !p.has(j)), &Set::EMPTY);
    Found {
        cliques: inside.cliques,
        ..through_all_sets(night.graph, night.held, night.pins)
    }
}

// The same by way of the cliques inside P alone, for tables with too many sets.
fn among_cliques(night: Night<'_>, p: &Set) -> Found {
    let n = night.graph.n;
    let inside = through_all_cliques(night.graph, &Set::of(n, |j| !p.has(j)));
    Found {
        set: Set::of(n, |j| inside.set.has(j) || night.pins.has(j)),
        size: inside.size.wrapping_add(night.pins.size(n)),
        cliques: inside.cliques,
    }
}

impl Night<'_> {
    // The result is lent with the noise of the seed.
    fn ask(self, budget: u64) -> Said {
        let mut words = [0u64; SET_WORDS];
        fill(&mut words, self.seed);
        let (held, pins) = (self.held.words(), self.pins.words());
        let answer = search(self.graph.n, self.table, &held, &pins, budget, &mut words);
        Said { answer, words }
    }

    fn listed(self) -> Found {
        let p = self.graph.candidates(self.held, self.pins);
        if self.graph.n <= FEW_JOBS {
            return among_sets(self, &p);
        }
        among_cliques(self, &p)
    }

    // Whether an unfinished answer's words are a clique of unheld jobs that holds every pin; at budget 0 the empty set.
    fn is_sound(self, budget: u64, words: &[u64]) -> bool {
        if budget == 0 {
            return words.iter().all(|word| *word == 0);
        }
        let set = Set::of(self.graph.n, |j| tables::has(words, 0, j));
        is_run(self.graph, self.held, self.pins, &set)
    }

    // The finished answer: the clique that is listed first among the largest, and how many visits there are to it.
    fn compare_finished(self, tally: &mut Tally) {
        let said = self.ask(u64::MAX);
        let free = Night {
            pins: &Set::EMPTY,
            ..self
        }
        .ask(u64::MAX);
        let found = self.listed();
        add(&mut tally.asked, 1);
        count(&mut tally.other, said.words != free.words);
        if let Ok(Searched::Best { visits, .. }) = said.answer {
            let largest = Searched::Best {
                size: found.size,
                visits,
            };
            let most = found.cliques.wrapping_mul(2).wrapping_sub(1);
            count(&mut tally.largest, said.is(largest, &found.set));
            count(&mut tally.few, visits as usize <= most);
        }
    }

    fn compare_budget(self, budget: u64, tally: &mut Tally) {
        let said = self.ask(budget);
        let agrees = match walk(self.graph, self.held, self.pins, budget) {
            Ok(State { kept, size, visits }) => said.is(Searched::Best { size, visits }, &kept),
            Err(State { kept, size, visits }) => {
                said.is(Searched::Unfinished { size, visits }, &kept)
            }
        };
        add(&mut tally.searches, 1);
        count(&mut tally.agreed, agrees);
        if let Ok(Searched::Unfinished { .. }) = said.answer {
            add(&mut tally.unfinished, 1);
            count(&mut tally.sound, self.is_sound(budget, &said.words));
        }
    }

    // With every budget from 0 to one more than the plain walk's visits.
    fn compare_budgets(self, tally: &mut Tally) {
        let (Ok(whole) | Err(whole)) = walk(self.graph, self.held, self.pins, u64::MAX);
        for budget in 0..whole.visits.wrapping_add(2) {
            let seed = self.seed.wrapping_add(budget);
            Night { seed, ..self }.compare_budget(budget, tally);
        }
    }

    // What is to be refused.
    fn compare_refused(self, expected: Refused, tally: &mut Tally) {
        let said = self.ask(u64::MAX);
        let kept = is_kept(&said.words, 0, self.seed);
        let right = kept && said.answer.map_err(Refused::from) == Err(expected);
        add(&mut tally.faults, 1);
        count(&mut tally.held, right && expected.number() == PIN_HELD);
        count(&mut tally.apart, right && expected.number() == PINS_APART);
    }

    pub fn compare(self, tally: &mut Tally) {
        match check_pins(self.graph, self.held, self.pins) {
            Ok(()) => {
                self.compare_finished(tally);
                self.compare_budgets(tally);
            }
            Err(expected) => self.compare_refused(expected, tally),
        }
    }
}
