// Runs the bounds on generated tables of up to 256 jobs, and compares with plain renderings of the paper's words that share no code
// with them. A line for each family of tables says how often each bound was run and agreed, and the sums of its values: the jobs
// left by the filter, m, and how often dominance held; and how often the filter took a job and a cover was as small as m.
#![tactic(auto)]

mod compare;
mod pairing;
mod plain;

use compare::{Counts, compare_dominance, compare_filters, compare_matching};
use std::io;
use test_kit::counts::add;
use test_kit::families::{FAMILIES, Family, SIZES, make_near, make_set, make_table};
use test_kit::noise::Chance;
use test_kit::packed::Packed;
use test_kit::plain::{Graph, Set, Table};

// All three on one set; about a third of the jobs are in X.
fn compare_set(
    graph: Graph<'_>,
    packed: &Packed,
    p: &Set,
    counts: &mut Counts,
    chance: &mut Chance,
) {
    let x = make_set(graph.n, 30, chance);
    compare_filters(graph, p, chance.pick(graph.n), counts);
    compare_matching(graph, packed, p, counts);
    compare_dominance(graph, packed, p, &x, counts);
    chance.turn();
}

// Dominance where one job of X misses that many of P, and a few others are in X.
fn compare_near(
    graph: Graph<'_>,
    packed: &Packed,
    within: &Set,
    misses: usize,
    counts: &mut Counts,
    chance: &mut Chance,
) {
    let others = make_set(graph.n, 5, chance);
    let j = chance.pick(graph.n);
    let p = make_near(graph.table, within, j, misses);
    compare_dominance(graph, packed, &p, &others.with(j), counts);
    chance.turn();
}

// A table of n jobs, and on it the set of all of them and a part of that.
fn run_table(family: Family, n: usize, counts: &mut Counts, chance: &mut Chance) {
    let mut table = Table::EMPTY;
    make_table(&mut table, family, n, chance);
    let whole = make_set(n, 100, chance);
    let part = make_set(n, 60, chance);
    let graph = Graph { n, table: &table };
    let packed = Packed::of(&table, n);
    add(&mut counts.tables, 1);
    compare_set(graph, &packed, &whole, counts, chance);
    compare_set(graph, &packed, &part, counts, chance);
    compare_near(graph, &packed, &whole, 0, counts, chance);
    compare_near(graph, &packed, &part, 1, counts, chance);
    compare_near(graph, &packed, &part, 2, counts, chance);
    compare_near(graph, &packed, &whole, 3, counts, chance);
}

// Runs every size twice, and prints the family's line.
// Kept: no plainer as one function of test_kit: what the two programs share here is the loop over the sizes, and a closure over a tally with its clause would be as long.
fn run(rt: &impl Print, family: Family, state: u64) -> io::Result<()> {
    let mut counts = Counts::default();
    let mut chance = Chance::new(state);
    for n in SIZES.iter().chain(SIZES.iter()) {
        run_table(family, *n, &mut counts, &mut chance);
    }
    println!(rt; "{family}: {counts}")
}

fn main(rt: HostRuntime) -> io::Result<()> {
    for (family, state) in FAMILIES {
        run(&rt, family, state)?;
    }
    Ok(())
}
