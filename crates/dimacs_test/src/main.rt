// Builds DIMACS graphs from their definitions, searches each to its end, and checks what comes back by plain loops.
// A line: name, nodes, edges, answer, size, visits, and whether the result is a clique of that size.
#![tactic(auto)]

mod labels;
mod rules;
mod tables;

use crate::labels::{Keep, Labels};
use crate::rules::Rule;
use search::{Searched, search};
use std::io;
use test_kit::limits::{SET_WORDS, TABLE_WORDS};
use test_kit::parts::rows;
use test_kit::refusals::Refused;

// Whether the result is a clique of that size.
fn check(table: &[u64], res: &[u64], size: usize) -> &'static str {
    if tables::members(res) != size {
        return "wrong size";
    }
    if tables::is_clique(table, res) {
        return "clique";
    }
    "no clique"
}

// Searches a table of n nodes.
fn solve(rt: &impl Print, n: usize, table: &[u64]) -> io::Result<()> {
    let mut result = [0u64; SET_WORDS];
    match search(n, table, &[0, 0, 0, 0], &[0, 0, 0, 0], 1000000, &mut result) {
        Ok(Searched::Best { size, visits }) => {
            println!(rt; "best {size} {visits} {}", check(table, &result, size))
        }
        Ok(Searched::Unfinished { size, visits }) => {
            println!(rt;
                "unfinished {size} {visits} {}",
                check(table, &result, size)
            )
        }
        Err(f) => println!(rt; "refused {}", Refused::from(f)),
    }
}

// The graph whose nodes have these labels.
fn graph(rt: &impl Print, name: &str, labels: Labels, rule: Rule) -> io::Result<()> {
    let mut room = [0u64; TABLE_WORDS];
    let nodes = labels.list();
    tables::fill(&mut room, nodes, rule);
    let table = rows(&room, nodes.len());
    print!(rt; "{name} {} {} ", nodes.len(), tables::edges(table))?;
    solve(rt, nodes.len(), table)
}

// Words of bits that differ in at least so many places.
fn words(rt: &impl Print, name: &str, below: u64, keep: Keep, places: u32) -> io::Result<()> {
    graph(rt, name, Labels::words(below, keep), Rule::Differ(places))
}

fn c_fat(rt: &impl Print, name: &str, groups: u64) -> io::Result<()> {
    graph(rt, name, Labels::groups(groups), Rule::Ring(groups))
}

fn main(rt: HostRuntime) -> io::Result<()> {
    words(&rt, "hamming6-2", 64, Keep::All, 2)?;
    words(&rt, "hamming6-4", 64, Keep::All, 4)?;
    words(&rt, "hamming8-2", 256, Keep::All, 2)?;
    words(&rt, "hamming8-4", 256, Keep::All, 4)?;
    words(&rt, "johnson8-2-4", 256, Keep::Ones(2), 4)?;
    words(&rt, "johnson8-4-4", 256, Keep::Ones(4), 4)?;
    words(&rt, "johnson16-2-4", 65536, Keep::Ones(2), 4)?;
    graph(
        &rt,
        "keller4",
        Labels::words(256, Keep::BesideZero),
        Rule::Keller,
    )?;
    graph(&rt, "MANN_a9", Labels::plane(), Rule::Mann)?;
    c_fat(&rt, "c-fat200-1", 37)?;
    c_fat(&rt, "c-fat200-2", 18)?;
    c_fat(&rt, "c-fat200-5", 7)
}
