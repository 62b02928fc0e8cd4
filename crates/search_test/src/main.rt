// Runs Search on document 01's small tables with every budget up to one more than their visits, on each refusal, and on
// tables of 256 and 257 jobs; then the same with pins. What it prints is compared.
#![tactic(auto)]

use search::{Searched, search};
use sets::refusal::Refusal;
use std::io;
use test_kit::limits::{MOST_JOBS, SET_WORDS, TABLE_WORDS};
use test_kit::print::Words;
use test_kit::refusals::Refused;
use test_kit::tables;
use test_kit::tables::{join, put};

// Prints what Search answers.
fn print_answer(rt: &impl Print, answer: Result<Searched, Refusal>) -> io::Result<()> {
    match answer {
        Ok(Searched::Best { size, visits }) => print!(rt; "best {size} visits {visits}"),
        Ok(Searched::Unfinished { size, visits }) => print!(rt;
            "unfinished {size} visits {visits}"
        ),
        Err(f) => print!(rt; "refused {}", Refused::from(f)),
    }
}

// Prints what Search answers, and the words of the lent result after.
// Kept: no plainer as a night with defaults: each line below is one call of Search and shows all that it is lent, wrong lengths too; a struct would name six fields or hide them.
fn run_lent(
    rt: &impl Print,
    n: usize,
    table: &[u64],
    holds: &[u64],
    pins: &[u64],
    budget: u64,
    res: &mut [u64],
) -> io::Result<()> {
    print_answer(rt, search(n, table, holds, pins, budget, res))?;
    println!(rt; " words{}", Words(res))
}

// With four words lent, each 9 before.
fn run_pinned(
    rt: &impl Print,
    n: usize,
    table: &[u64],
    holds: &[u64],
    pins: &[u64],
    budget: u64,
) -> io::Result<()> {
    let mut result = [9u64; 4];
    run_lent(rt, n, table, holds, pins, budget, &mut result)
}

// And with no pins.
fn run(rt: &impl Print, n: usize, table: &[u64], holds: &[u64], budget: u64) -> io::Result<()> {
    run_pinned(rt, n, table, holds, &[0, 0, 0, 0], budget)
}

// With every budget up to this one.
fn budgets_pinned(
    rt: &impl Print,
    n: usize,
    table: &[u64],
    holds: &[u64],
    pins: &[u64],
    most: u64,
) -> io::Result<()> {
    for budget in 0..=most {
        print!(rt; "{budget}: ")?;
        run_pinned(rt, n, table, holds, pins, budget)?;
    }
    Ok(())
}

fn budgets(rt: &impl Print, n: usize, table: &[u64], holds: &[u64], most: u64) -> io::Result<()> {
    budgets_pinned(rt, n, table, holds, &[0, 0, 0, 0], most)
}

fn small(rt: &impl Print) -> io::Result<()> {
    let t = [0u64; 12];
    println!(rt; "no jobs")?;
    budgets(rt, 0, &t[..0], &[0, 0, 0, 0], 2)?;
    println!(rt; "one job")?;
    budgets(rt, 1, &t[..4], &[0, 0, 0, 0], 4)?;
    println!(rt; "three jobs, none fitting")?;
    budgets(rt, 3, &t, &[0, 0, 0, 0], 4)
}

fn three(rt: &impl Print) -> io::Result<()> {
    let mut t = [0u64; 12];
    tables::full(&mut t, 3);
    println!(rt; "three jobs, all fitting")?;
    budgets(rt, 3, &t, &[0, 0, 0, 0], 8)?;
    println!(rt; "with all three held")?;
    budgets(rt, 3, &t, &[7, 0, 0, 0], 2)
}

fn ring(rt: &impl Print) -> io::Result<()> {
    let mut t = [0u64; 20];
    tables::ring(&mut t, 5);
    println!(rt; "ring")?;
    budgets(rt, 5, &t, &[0, 0, 0, 0], 6)?;
    run(rt, 5, &t, &[0, 0, 0, 0], u64::MAX)?;
    println!(rt; "ring, job 0 held")?;
    budgets(rt, 5, &t, &[1, 0, 0, 0], 6)
}

fn four(rt: &impl Print) -> io::Result<()> {
    let mut t = [0u64; 16];
    join(&mut t, 0, 3);
    join(&mut t, 1, 2);
    println!(rt; "four jobs, pairs 0-3 and 1-2")?;
    budgets(rt, 4, &t, &[0, 0, 0, 0], 6)
}

// Numbers 1 to 4, and which of two comes first.
// Kept: no plainer as tables shared with the programs for Check and Colour: the three calls lend different things and refuse different numbers, so that a shared list would have cases for one of
// them alone; and a program reads as its cases, beside which the stdout file stands.
fn lengths(rt: &impl Print) -> io::Result<()> {
    let t = [0u64; 20];
    println!(rt; "lengths")?;
    run(rt, 257, &t, &[0, 0, 0, 0], 10)?;
    run(rt, 5, &t[..19], &[0, 0, 0, 0], 10)?;
    run(rt, 4, &t, &[0, 0, 0, 0], 10)?;
    run(rt, 5, &t, &[0, 0, 0], 10)?;
    run(rt, 5, &t, &[0, 0, 0, 0, 0], 10)?;
    let mut three = [9u64; 3];
    run_lent(rt, 5, &t, &[0, 0, 0, 0], &[0, 0, 0, 0], 10, &mut three)?;
    run_lent(rt, 257, &t[..3], &[], &[0, 0, 0, 0], 0, &mut three)?;
    run_lent(rt, 5, &t[..3], &[], &[0, 0, 0, 0], 0, &mut three)?;
    run_lent(rt, 5, &t, &[], &[0, 0, 0, 0], 0, &mut three)?;
    let mut five = [9u64; 5];
    run_lent(rt, 5, &t, &[0, 0, 0, 0], &[0, 0, 0, 0], 10, &mut five)
}

// Number 5: in the holds; in the table, before the holds; in an earlier row; in an earlier column.
fn beyond(rt: &impl Print) -> io::Result<()> {
    let mut t = [0u64; 20];
    println!(rt; "beyond")?;
    run(rt, 5, &t, &[32, 0, 0, 0], 10)?;
    run(rt, 5, &t, &[0, 0, 0, 1 << 63], 10)?;
    put(&mut t, 4, 77);
    run(rt, 5, &t, &[32, 0, 0, 0], 10)?;
    put(&mut t, 2, 255);
    run(rt, 5, &t, &[32, 0, 0, 0], 10)?;
    put(&mut t, 2, 5);
    run(rt, 5, &t, &[0, 0, 0, 0], 10)?;
    let mut three = [9u64; 3];
    run_lent(rt, 5, &t, &[0, 0, 0, 0], &[0, 0, 0, 0], 10, &mut three)
}

// Numbers 6 and 7, the first place of each; the whole table is gone through for one number before the next.
fn pairs(rt: &impl Print) -> io::Result<()> {
    let mut t = [0u64; 20];
    println!(rt; "pairs")?;
    run(rt, 2, &[2, 0, 0, 0, 0, 0, 0, 0], &[0, 0, 0, 0], 10)?;
    put(&mut t, 0, 1);
    run(rt, 5, &t, &[0, 0, 0, 0], 10)?;
    put(&mut t, 1, 0);
    put(&mut t, 4, 2);
    run(rt, 5, &t, &[0, 0, 0, 0], 10)?;
    put(&mut t, 3, 3);
    run(rt, 5, &t, &[0, 0, 0, 0], 10)?;
    put(&mut t, 2, 2);
    run(rt, 5, &t, &[0, 0, 0, 0], 0)?;
    put(&mut t, 4, 5);
    run(rt, 5, &t, &[0, 0, 0, 0], 0)
}

// 256 jobs, none fitting, and 257.
fn many(rt: &impl Print) -> io::Result<()> {
    let t = [0u64; TABLE_WORDS + SET_WORDS];
    println!(rt; "many")?;
    run(rt, MOST_JOBS, &t[..TABLE_WORDS], &[0, 0, 0, 0], 1000000)?;
    run(
        rt,
        MOST_JOBS,
        &t[..TABLE_WORDS],
        &[u64::MAX, u64::MAX, u64::MAX, u64::MAX / 2],
        1000000,
    )?;
    run(rt, MOST_JOBS, &t[..TABLE_WORDS - 1], &[0, 0, 0, 0], 1000000)?;
    run(rt, MOST_JOBS, &t[..TABLE_WORDS + 1], &[0, 0, 0, 0], 1000000)?;
    run(rt, MOST_JOBS + 1, &t[..0], &[0, 0, 0, 0], 1000000)?;
    run(
        rt,
        MOST_JOBS + 1,
        &t[..TABLE_WORDS - 1],
        &[0, 0, 0, 0],
        1000000,
    )?;
    run(rt, MOST_JOBS + 1, &t[..TABLE_WORDS], &[0, 0, 0, 0], 1000000)?;
    run(rt, MOST_JOBS + 1, &t, &[0, 0, 0, 0], 1000000)
}

// 256 jobs, all fitting: each visit but the last ones takes one more.
fn full(rt: &impl Print) -> io::Result<()> {
    let mut t = [0u64; TABLE_WORDS];
    println!(rt; "full")?;
    tables::full(&mut t, MOST_JOBS);
    run(rt, MOST_JOBS, &t, &[0, 0, 0, 0], 512)?;
    run(rt, MOST_JOBS, &t, &[0, 0, 0, 0], 513)
}

fn few_pinned(rt: &impl Print) -> io::Result<()> {
    let mut t = [0u64; 12];
    println!(rt; "one job, pinned")?;
    budgets_pinned(rt, 1, &t[..4], &[0, 0, 0, 0], &[1, 0, 0, 0], 2)?;
    println!(rt; "three jobs, none fitting, job 1 pinned")?;
    budgets_pinned(rt, 3, &t, &[0, 0, 0, 0], &[2, 0, 0, 0], 2)?;
    tables::full(&mut t, 3);
    println!(rt; "three jobs, all fitting, job 1 pinned")?;
    budgets_pinned(rt, 3, &t, &[0, 0, 0, 0], &[2, 0, 0, 0], 6)?;
    println!(rt; "with job 0 held")?;
    budgets_pinned(rt, 3, &t, &[1, 0, 0, 0], &[2, 0, 0, 0], 4)?;
    println!(rt; "with all three pinned")?;
    budgets_pinned(rt, 3, &t, &[0, 0, 0, 0], &[7, 0, 0, 0], 2)
}

fn ring_pinned(rt: &impl Print) -> io::Result<()> {
    let mut t = [0u64; 20];
    tables::ring(&mut t, 5);
    println!(rt; "ring, job 2 pinned")?;
    budgets_pinned(rt, 5, &t, &[0, 0, 0, 0], &[4, 0, 0, 0], 4)?;
    run_pinned(rt, 5, &t, &[0, 0, 0, 0], &[4, 0, 0, 0], u64::MAX)?;
    println!(rt; "with job 1 held")?;
    budgets_pinned(rt, 5, &t, &[2, 0, 0, 0], &[4, 0, 0, 0], 4)
}

fn ring_other_pins(rt: &impl Print) -> io::Result<()> {
    let mut t = [0u64; 20];
    tables::ring(&mut t, 5);
    println!(rt; "ring, job 4 pinned")?;
    budgets_pinned(rt, 5, &t, &[0, 0, 0, 0], &[16, 0, 0, 0], 4)?;
    println!(rt; "ring, jobs 0 and 1 pinned")?;
    budgets_pinned(rt, 5, &t, &[0, 0, 0, 0], &[3, 0, 0, 0], 2)
}

// Number 40: after 1 to 4, before 5.
fn pin_lengths(rt: &impl Print) -> io::Result<()> {
    let mut t = [0u64; 20];
    let mut three = [9u64; 3];
    println!(rt; "pin lengths")?;
    run_pinned(rt, 5, &t, &[0, 0, 0, 0], &[], 10)?;
    run_pinned(rt, 5, &t, &[0, 0, 0, 0], &[0, 0, 0], 10)?;
    run_pinned(rt, 5, &t, &[0, 0, 0, 0], &[0, 0, 0, 0, 0], 10)?;
    run_pinned(rt, 5, &t, &[0, 0, 0, 0], &[], 0)?;
    run_pinned(rt, 257, &t, &[0, 0, 0, 0], &[], 10)?;
    run_pinned(rt, 5, &t[..19], &[0, 0, 0, 0], &[], 10)?;
    run_pinned(rt, 5, &t, &[0, 0, 0], &[], 10)?;
    run_lent(rt, 5, &t, &[0, 0, 0, 0], &[], 10, &mut three)?;
    run_pinned(rt, 5, &t, &[32, 0, 0, 0], &[0, 0, 0], 10)?;
    put(&mut t, 4, 77);
    run_pinned(rt, 5, &t, &[0, 0, 0, 0], &[0, 0, 0], 10)
}

// Number 5 in the pins: after the table and the holds, before 6 and 41.
fn pins_beyond(rt: &impl Print) -> io::Result<()> {
    let mut t = [0u64; 20];
    println!(rt; "pins beyond")?;
    run_pinned(rt, 0, &t[..0], &[0, 0, 0, 0], &[1, 0, 0, 0], 10)?;
    run_pinned(rt, 5, &t, &[0, 0, 0, 0], &[32, 0, 0, 0], 10)?;
    run_pinned(rt, 5, &t, &[0, 0, 0, 0], &[0, 0, 0, 1 << 63], 10)?;
    run_pinned(rt, 5, &t, &[2, 0, 0, 0], &[98, 0, 0, 0], 0)?;
    run_pinned(rt, 5, &t, &[64, 0, 0, 0], &[32, 0, 0, 0], 10)?;
    put(&mut t, 3, 3);
    run_pinned(rt, 5, &t, &[0, 0, 0, 0], &[32, 0, 0, 0], 10)?;
    put(&mut t, 4, 77);
    run_pinned(rt, 5, &t, &[64, 0, 0, 0], &[32, 0, 0, 0], 10)
}

// Number 41, the lowest held pin; before 42.
fn pins_held(rt: &impl Print) -> io::Result<()> {
    let mut t = [0u64; 20];
    println!(rt; "pins held")?;
    tables::ring(&mut t, 5);
    run_pinned(rt, 5, &t, &[4, 0, 0, 0], &[4, 0, 0, 0], 10)?;
    run_pinned(rt, 5, &t, &[6, 0, 0, 0], &[7, 0, 0, 0], 0)?;
    run_pinned(rt, 5, &t, &[24, 0, 0, 0], &[25, 0, 0, 0], 10)?;
    run_pinned(rt, 5, &t, &[31, 0, 0, 0], &[16, 0, 0, 0], 10)
}

// Number 42, the first two pins that do not fit.
fn pins_apart(rt: &impl Print) -> io::Result<()> {
    let mut t = [0u64; 20];
    println!(rt; "pins apart")?;
    tables::ring(&mut t, 5);
    run_pinned(rt, 5, &t, &[0, 0, 0, 0], &[5, 0, 0, 0], 10)?;
    run_pinned(rt, 5, &t, &[0, 0, 0, 0], &[11, 0, 0, 0], 0)?;
    run_pinned(rt, 5, &t, &[1, 0, 0, 0], &[30, 0, 0, 0], 10)?;
    run_pinned(rt, 5, &t, &[0, 0, 0, 0], &[28, 0, 0, 0], 10)
}

// Numbers 6 and 7 come before 41 and 42.
fn pins_after_pairs(rt: &impl Print) -> io::Result<()> {
    let mut t = [0u64; 20];
    println!(rt; "pins after pairs")?;
    put(&mut t, 4, 2);
    run_pinned(rt, 5, &t, &[4, 0, 0, 0], &[4, 0, 0, 0], 10)?;
    run_pinned(rt, 5, &t, &[0, 0, 0, 0], &[3, 0, 0, 0], 10)?;
    put(&mut t, 3, 3);
    run_pinned(rt, 5, &t, &[4, 0, 0, 0], &[4, 0, 0, 0], 10)?;
    run_pinned(rt, 5, &t, &[0, 0, 0, 0], &[3, 0, 0, 0], 10)
}

// 256 jobs, none fitting.
fn many_pinned(rt: &impl Print) -> io::Result<()> {
    let t = [0u64; TABLE_WORDS];
    println!(rt; "many, pinned")?;
    run_pinned(rt, MOST_JOBS, &t, &[0, 0, 0, 0], &[0, 0, 0, 256], 1000000)?;
    run_pinned(rt, MOST_JOBS, &t, &[0, 0, 0, 256], &[0, 0, 0, 256], 1000000)?;
    run_pinned(rt, MOST_JOBS, &t, &[0, 0, 0, 0], &[0, 1, 1, 0], 1000000)
}

// 256 jobs, all fitting, with all pinned but job 0; then all but the last two fitting, with all pinned.
fn full_pinned(rt: &impl Print) -> io::Result<()> {
    let mut t = [0u64; TABLE_WORDS];
    println!(rt; "full, pinned")?;
    tables::full(&mut t, MOST_JOBS);
    budgets_pinned(
        rt,
        MOST_JOBS,
        &t,
        &[0, 0, 0, 0],
        &[u64::MAX - 1, u64::MAX, u64::MAX, u64::MAX],
        3,
    )?;
    tables::part(&mut t, 254, 255);
    run_pinned(
        rt,
        MOST_JOBS,
        &t,
        &[0, 0, 0, 0],
        &[u64::MAX, u64::MAX, u64::MAX, u64::MAX],
        3,
    )
}

fn pinned(rt: &impl Print) -> io::Result<()> {
    few_pinned(rt)?;
    ring_pinned(rt)?;
    ring_other_pins(rt)?;
    pin_lengths(rt)?;
    pins_beyond(rt)?;
    pins_held(rt)?;
    pins_apart(rt)?;
    pins_after_pairs(rt)?;
    many_pinned(rt)?;
    full_pinned(rt)
}

fn main(rt: HostRuntime) -> io::Result<()> {
    small(&rt)?;
    three(&rt)?;
    ring(&rt)?;
    four(&rt)?;
    lengths(&rt)?;
    beyond(&rt)?;
    pairs(&rt)?;
    many(&rt)?;
    full(&rt)?;
    pinned(&rt)
}
