// Runs Check and Prefer on the ring, on every refusal, and on full tables of many sizes; what it prints is compared.
#![tactic(auto)]

use sets::check::{Checked, check_set};
use sets::prefer::prefer;
use std::io;
use test_kit::limits::{SET_WORDS, TABLE_WORDS};
use test_kit::parts::rows;
use test_kit::print::Words;
use test_kit::refusals::Refused;
use test_kit::tables;
use test_kit::tables::{join, put};

// Prints what Check answers.
fn check(rt: &impl Print, n: usize, table: &[u64], set: &[u64]) -> io::Result<()> {
    match check_set(n, table, set) {
        Ok(Checked::Clique { size }) => println!(rt; "yes {size}"),
        Ok(Checked::Misfit { first, second }) => println!(rt; "pair {first} {second}"),
        Err(f) => println!(rt; "refused {}", Refused::from(f)),
    }
}

// The ring of five jobs against sets of it.
fn ring(rt: &impl Print) -> io::Result<()> {
    let mut t = [0u64; 20];
    tables::ring(&mut t, 5);
    println!(rt; "ring")?;
    for jobs in [0, 8, 3, 17, 5, 26, 31] {
        check(rt, 5, &t, &[jobs, 0, 0, 0])?;
    }
    Ok(())
}

// Numbers 1, 2 and 4, and which of two comes first.
// Kept: no plainer as tables shared with the programs for Search and Colour: the three calls lend different things and refuse different numbers, and a program reads as its cases.
fn lengths(rt: &impl Print) -> io::Result<()> {
    let t = [0u64; 20];
    println!(rt; "lengths")?;
    check(rt, 257, &t, &[0, 0, 0, 0])?;
    check(rt, 5, &t[..19], &[0, 0, 0, 0])?;
    check(rt, 4, &t, &[0, 0, 0, 0])?;
    check(rt, 5, &t, &[0, 0, 0])?;
    check(rt, 5, &t, &[0, 0, 0, 0, 0])?;
    check(rt, 257, &t[..0], &[])?;
    check(rt, 5, &t[..19], &[])
}

// Number 5: in the set; in the table, before the set; in an earlier row; in an earlier column.
fn beyond(rt: &impl Print) -> io::Result<()> {
    let mut t = [0u64; 20];
    println!(rt; "beyond")?;
    join(&mut t, 0, 1);
    check(rt, 5, &t, &[32, 0, 0, 0])?;
    check(rt, 5, &t, &[0, 0, 0, 256])?;
    put(&mut t, 4, 77);
    check(rt, 5, &t, &[32, 0, 0, 0])?;
    put(&mut t, 2, 255);
    check(rt, 5, &t, &[32, 0, 0, 0])?;
    put(&mut t, 2, 5);
    check(rt, 5, &t, &[0, 0, 0, 0])
}

// Number 6, and the first of two.
fn itself(rt: &impl Print) -> io::Result<()> {
    let mut t = [0u64; 20];
    println!(rt; "itself")?;
    put(&mut t, 3, 3);
    check(rt, 5, &t, &[0, 0, 0, 0])?;
    put(&mut t, 1, 1);
    check(rt, 5, &t, &[0, 0, 0, 0])
}

// Number 7, either way round; the whole table is gone through for 6, and for 5, before.
fn one_way(rt: &impl Print) -> io::Result<()> {
    let mut t = [0u64; 20];
    println!(rt; "one way")?;
    for (r, c) in [(3, 1), (0, 4), (4, 4), (4, 5)] {
        put(&mut t, r, c);
        check(rt, 5, &t, &[0, 0, 0, 0])?;
    }
    Ok(())
}

// A table in which n jobs all fit, or all but the last two, checked with all of its jobs.
fn full(rt: &impl Print, n: usize, parted: bool) -> io::Result<()> {
    let mut t = [0u64; TABLE_WORDS + SET_WORDS];
    let mut s = [0u64; SET_WORDS];
    tables::full(&mut t, n);
    if parted && 2 <= n {
        tables::part(&mut t, n - 2, n - 1);
    }
    tables::first_jobs(&mut s, 0, n);
    print!(rt; "full {n}: ")?;
    check(rt, n, rows(&t, n), &s)
}

// With every pair, and without the last one.
fn fulls(rt: &impl Print) -> io::Result<()> {
    for n in [0, 1, 63, 64, 65, 255, 256, 257] {
        full(rt, n, false)?;
        if 2 <= n {
            full(rt, n, true)?;
        }
    }
    Ok(())
}

// Prints the words that Prefer hands back.
fn better<'a>(rt: &impl Print, a: &'a [u64], b: &'a [u64]) -> io::Result<()> {
    println!(rt; "words{}", Words(prefer(a, b)))
}

fn preferences(rt: &impl Print) -> io::Result<()> {
    println!(rt; "prefer")?;
    // The larger, wherever it stands and whatever its jobs.
    better(rt, &[1, 0, 0, 0], &[6, 0, 0, 0])?;
    better(rt, &[6, 0, 0, 0], &[1, 0, 0, 0])?;
    better(rt, &[7, 0, 0, 0], &[0, 0, 0, 1 << 63])?;
    // The earlier: 0 4 before 1 2; 0 1 before 0 255; 64 before 128.
    better(rt, &[6, 0, 0, 0], &[17, 0, 0, 0])?;
    better(rt, &[17, 0, 0, 0], &[6, 0, 0, 0])?;
    better(rt, &[1, 0, 0, 1 << 63], &[3, 0, 0, 0])?;
    better(rt, &[0, 0, 1, 0], &[0, 1, 0, 0])?;
    // Equal sets, the empty one too.
    better(rt, &[5, 0, 9, 0], &[5, 0, 9, 0])?;
    better(rt, &[0, 0, 0, 0], &[0, 0, 0, 0])?;
    // Not four words.
    better(rt, &[1, 2, 3], &[1, 2, 3, 4])?;
    better(rt, &[1, 2, 3, 4], &[1, 2, 3, 4, 5])?;
    better(rt, &[], &[])
}

fn main(rt: HostRuntime) -> io::Result<()> {
    ring(&rt)?;
    lengths(&rt)?;
    beyond(&rt)?;
    itself(&rt)?;
    one_way(&rt)?;
    fulls(&rt)?;
    preferences(&rt)
}
