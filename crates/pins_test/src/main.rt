// Holds Search with pins against two plain searches on generated tables of up to 12 jobs with holds: one goes through all sets for the cliques that hold every pin,
// the other walks as document 01 says, at every budget from 0 to N + 1. Each table has pins that all fit, 0 to 4 of them, and pins as they come, of which most
// are to be refused. What it prints is compared.
#![tactic(auto)]

mod compare;
mod pins;

use compare::{Night, Tally};
use pins::any_pins;
use std::io;
use test_kit::generated::{Recipe, fitting_pins};
use test_kit::parts::rows;
use test_kit::plain::{Graph, Table};

// One table, with so many pins wanted, and with pins as they come.
fn one_table(recipe: Recipe, wanted: usize, tally: &mut Tally) {
    let n = recipe.n;
    let seed = recipe.seed;
    let mut table = Table::EMPTY;
    recipe.fill(&mut table);
    let words = table.words(n);
    let held = recipe.holds();
    let graph = Graph { n, table: &table };
    for pins in [fitting_pins(graph, &held, wanted, seed), any_pins(n, seed)] {
        let night = Night {
            graph,
            table: rows(&words, n),
            held: &held,
            pins: &pins,
            seed,
        };
        night.compare(tally);
    }
}

// Ten tables of one size, with so many pairs in a hundred that fit and jobs that are held.
fn alike(n: usize, fitting: u64, held: u64, tally: &mut Tally) {
    for number in 0u64..10 {
        let wanted = (number % 5) as usize;
        one_table(Recipe::new(n, fitting, held, number), wanted, tally);
    }
}

// Densities 0.1 to 0.9, with no job held and with about a fifth.
fn few(rt: &impl Print, n: usize) -> io::Result<()> {
    let mut tally = Tally::default();
    for tenths in 1u64..10 {
        alike(n, 10 * tenths, 0, &mut tally);
        alike(n, 10 * tenths, 20, &mut tally);
    }
    println!(rt; "{n} jobs: {tally}")
}

// Sets of two words, of three and of four. Two tables of many jobs of each size, with four pins wanted: they leave few enough candidates to list
// all cliques inside them.
fn many(rt: &impl Print) -> io::Result<()> {
    let mut tally = Tally::default();
    for (n, fitting) in [(65, 70), (130, 55), (193, 45), (256, 40)] {
        for number in 0..2 {
            one_table(Recipe::new(n, fitting, 10, number), 4, &mut tally);
        }
    }
    println!(rt; "65 to 256 jobs: {tally}")
}

fn main(rt: HostRuntime) -> io::Result<()> {
    for n in 0..13 {
        few(&rt, n)?;
    }
    many(&rt)
}
