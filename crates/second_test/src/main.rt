// Holds Search against two plain searches on generated tables: one by the definition of a maximum clique, compared set by set,
// and one that walks as document 01 says, compared on kept set and visits at many budgets. What it prints is compared.
#![tactic(auto)]

use search::{Searched, search};
use sets::refusal::Refusal;
use std::{fmt, io};
use test_kit::counts::{add, count};
use test_kit::generated::Recipe;
use test_kit::limits::SET_WORDS;
use test_kit::parts::rows;
use test_kit::plain::{Graph, Set, Table};
use test_kit::plain_clique::{Found, through_all_cliques, through_all_sets};
use test_kit::plain_walk::walk;

// What Search is held against.
// Kept: no plainer as closures: three cases that are matched in one place, with all that each does beside it; as a closure over a Night and a tally each would go through four functions as
// a type parameter with its clause.
#[derive(Clone, Copy)]
enum Way {
    AllSets,
    AllCliques,
    Walk,
}

// How many searches ran; how many agreed on the set, on the answer with its size, and on the visits; the sums of sizes and visits.
#[derive(Clone, Copy, Default)]
struct Tally {
    run: usize,
    sets: usize,
    answers: usize,
    visits: usize,
    sum_sizes: usize,
    sum_visits: usize,
}

impl fmt::Display for Tally {
    fn fmt<W: fmt::Write>(&self, f: &mut fmt::Formatter<W>) -> fmt::Result {
        write!(
            f,
            "{} run, {} agree on the set, {} on the answer, ",
            self.run, self.sets, self.answers
        )?;
        write!(
            f,
            "{} on the visits; sum of sizes {}, of visits {}",
            self.visits, self.sum_sizes, self.sum_visits
        )
    }
}

impl Tally {
    // One more search, compared with the set and the answer that are wanted, given its visits; one that is refused agrees with nothing.
    fn compare<F: Fn(u64) -> Searched, G: Fn(u64) -> bool>(
        &mut self,
        said: Said,
        set: &Set,
        wanted: F,
        are_visits: G,
    )
        requires answers { F.IsAlwaysCallable wanted }
        requires counts { G.IsAlwaysCallable are_visits }
    {
        add(&mut self.run, 1);
        count(&mut self.sets, said.words == set.words());
        let Ok(answer) = said.answer else {
            return;
        };
        let (Searched::Best { size, visits } | Searched::Unfinished { size, visits }) = answer;
        count(&mut self.answers, answer == wanted(visits));
        count(&mut self.visits, are_visits(visits));
        add(&mut self.sum_sizes, size);
        add(&mut self.sum_visits, visits as usize);
    }
}

// What Search answered, and the words that it wrote.
#[derive(Clone, Copy)]
struct Said {
    answer: Result<Searched, Refusal>,
    words: [u64; SET_WORDS],
}

// A graph with holds, and its table as Search takes it.
// Kept: no plainer as one type with the program for pins: that one lends noise by a seed and pins, this one ones and none, and test_kit, where it would stand, does not stand on search.
#[derive(Clone, Copy)]
struct Night<'a> {
    graph: Graph<'a>,
    table: &'a [u64],
    held: &'a Set,
}

impl Night<'_> {
    // Asks Search, with no pins. The result is lent full of ones, which it has to write over.
    fn ask(self, budget: u64) -> Said {
        let mut words = [u64::MAX; SET_WORDS];
        let holds = self.held.words();
        let answer = search(
            self.graph.n,
            self.table,
            &holds,
            &[0, 0, 0, 0],
            budget,
            &mut words,
        );
        Said { answer, words }
    }

    // Compares with the first maximum clique. The visits agree if there are at most 2q - 1, where q is the number of cliques.
    fn against_clique(self, found: &Found, tally: &mut Tally) {
        let size = found.size;
        let most = found.cliques.wrapping_mul(2).wrapping_sub(1);
        tally.compare(
            self.ask(u64::MAX),
            &found.set,
            |visits| Searched::Best { size, visits },
            |visits| visits as usize <= most,
        );
    }

    // Compares with the plain walk at a budget.
    fn at_budget(self, budget: u64, tally: &mut Tally) {
        let walked = walk(self.graph, self.held, &Set::EMPTY, budget);
        let (Ok(state) | Err(state)) = walked;
        let size = state.size;
        tally.compare(
            self.ask(budget),
            &state.kept,
            |visits| match walked {
                Ok(_) => Searched::Best { size, visits },
                Err(_) => Searched::Unfinished { size, visits },
            },
            |visits| visits == state.visits,
        );
    }

    // Compares with the plain walk at budgets for its visits.
    fn against_walk(self, tally: &mut Tally) {
        let (Ok(whole) | Err(whole)) = walk(self.graph, self.held, &Set::EMPTY, u64::MAX);
        for budget in budgets(whole.visits) {
            self.at_budget(budget, tally);
        }
    }

    fn compare(self, way: Way, tally: &mut Tally) {
        match way {
            Way::AllSets => {
                self.against_clique(&through_all_sets(self.graph, self.held, &Set::EMPTY), tally)
            }
            Way::AllCliques => {
                self.against_clique(&through_all_cliques(self.graph, self.held), tally)
            }
            Way::Walk => self.against_walk(tally),
        }
    }
}

// The budgets for a walk of so many visits.
fn budgets(visits: u64) -> [u64; 16] {
    [
        0,
        1,
        2,
        3,
        4,
        5,
        8,
        visits / 4,
        visits / 3,
        visits / 2,
        visits - visits / 4,
        visits.wrapping_sub(1),
        visits,
        visits.wrapping_add(1),
        1000000,
        u64::MAX,
    ]
}

// Makes a table and compares.
// Kept: no plainer as one function with the program for pins: what is shared is the filling of a table, which Recipe has; the rest makes another Night, and there two for each table.
fn one_table(way: Way, recipe: Recipe, tally: &mut Tally) {
    let n = recipe.n;
    let mut table = Table::EMPTY;
    recipe.fill(&mut table);
    let words = table.words(n);
    let held = recipe.holds();
    let night = Night {
        graph: Graph { n, table: &table },
        table: rows(&words, n),
        held: &held,
    };
    night.compare(way, tally);
}

// So many tables of one size, with so many pairs in a hundred that fit and jobs that are held.
fn alike(way: Way, n: usize, fitting: u64, held: u64, tables: u64, tally: &mut Tally) {
    for number in 0..tables {
        one_table(way, Recipe::new(n, fitting, held, number), tally);
    }
}

// So many tables of each size and of densities 0.1 to 0.9, with no job held and with about a fifth.
fn sizes(way: Way, from: usize, to: usize, tables: u64) -> Tally {
    let mut tally = Tally::default();
    for n in from..to {
        for tenths in 1..10 {
            alike(way, n, 10 * tenths, 0, tables, &mut tally);
            alike(way, n, 10 * tenths, 20, tables, &mut tally);
        }
    }
    tally
}

// So many tables of each of the listed sizes and densities, with about a tenth of the jobs held.
fn listed(way: Way, kinds: [(usize, u64); 8], tables: u64) -> Tally {
    let mut tally = Tally::default();
    for (jobs, fitting) in kinds {
        alike(way, jobs, fitting, 10, tables, &mut tally);
    }
    tally
}

fn all_sets(rt: &impl Print) -> io::Result<()> {
    println!(rt; "all sets, 0 to 11 jobs: {}", sizes(Way::AllSets, 0, 12, 5))?;
    println!(rt; "all sets, 15 jobs: {}", sizes(Way::AllSets, 15, 16, 2))
}

// The larger tables are sparse enough to go through all their cliques.
const SPARSE: [(usize, u64); 8] = [
    (40, 50),
    (64, 30),
    (65, 30),
    (100, 20),
    (128, 10),
    (193, 8),
    (255, 4),
    (256, 2),
];

fn all_cliques(rt: &impl Print) -> io::Result<()> {
    println!(rt;
        "all cliques, 0 to 20 jobs: {}",
        sizes(Way::AllCliques, 0, 21, 5)
    )?;
    println!(rt;
        "all cliques, 40 to 256 jobs: {}",
        listed(Way::AllCliques, SPARSE, 12)
    )
}

const WALKED: [(usize, u64); 8] = [
    (25, 100),
    (30, 50),
    (30, 90),
    (35, 95),
    (40, 70),
    (65, 10),
    (130, 3),
    (256, 1),
];

fn walks(rt: &impl Print) -> io::Result<()> {
    println!(rt; "walk, 0 to 20 jobs: {}", sizes(Way::Walk, 0, 21, 4))?;
    println!(rt; "walk, 25 to 256 jobs: {}", listed(Way::Walk, WALKED, 4))
}

fn main(rt: HostRuntime) -> io::Result<()> {
    all_sets(&rt)?;
    all_cliques(&rt)?;
    walks(&rt)
}
