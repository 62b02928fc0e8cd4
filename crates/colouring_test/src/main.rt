// Runs Colour on generated tables of up to 256 jobs, with none and with about a third of them held, without pins and with some, and the colouring in the search's room
// on the jobs that are not held and on the last of them; compares with a second method that shares no code with them. A line for each family of tables says how
// often Colour agreed in k and in all 256 numbers, the sum of k, and how often the numbers were a colouring, without pins and with them; how often the room's
// colouring agreed, in the reply and in every word of the room, and how often it left off.
#![tactic(auto)]

mod compare;
mod lent;
mod plain;
mod refusals;
mod shown;

use compare::{Tally, compare_colour, compare_room};
use refusals::run_refusals;
use std::io;
use test_kit::counts::add;
use test_kit::families::{FAMILIES, Family, SIZES, make_set, make_table};
use test_kit::generated::fitting_pins;
use test_kit::noise::Chance;
use test_kit::packed::Packed;
use test_kit::plain::{Graph, Set, Table};

// Colour without pins, and with one and three wanted; and the room's colouring. The last quarter of many jobs has none in the first word.
fn compare_held(graph: Graph<'_>, packed: &Packed, held: &Set, tally: &mut Tally, seed: u64) {
    compare_colour(graph, held, &Set::EMPTY, &mut tally.free, seed);
    for wanted in [1, 3] {
        let pins = fitting_pins(graph, held, wanted, seed);
        compare_colour(graph, held, &pins, &mut tally.pinned, seed);
    }
    let p = graph.candidates(held, &Set::EMPTY);
    for part in [p, p.last_quarter(graph.n)] {
        compare_room(graph.table, packed, &part, &mut tally.room, seed);
    }
}

// A table of n jobs, with none held and with about a third.
fn run_table(family: Family, n: usize, tally: &mut Tally, chance: &mut Chance) {
    let mut table = Table::EMPTY;
    make_table(&mut table, family, n, chance);
    let graph = Graph { n, table: &table };
    let packed = Packed::of(&table, n);
    add(&mut tally.tables, 1);
    compare_held(graph, &packed, &Set::EMPTY, tally, chance.state);
    let held = make_set(n, 33, chance);
    compare_held(graph, &packed, &held, tally, chance.state);
}

// Runs every size twice, and prints the family's line.
// Kept: no plainer as one function of test_kit: what the two programs share here is the loop over the sizes, and a closure over a tally with its clause would be as long.
fn run(rt: &impl Print, family: Family, state: u64) -> io::Result<()> {
    let mut tally = Tally::default();
    let mut chance = Chance::new(state);
    for n in SIZES.iter().chain(SIZES.iter()) {
        run_table(family, *n, &mut tally, &mut chance);
    }
    println!(rt; "{family}: {tally}")
}

fn main(rt: HostRuntime) -> io::Result<()> {
    for (family, state) in FAMILIES {
        run(&rt, family, state)?;
    }
    run_refusals(&rt)
}
