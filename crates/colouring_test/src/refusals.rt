// What Colour answers on small nights, by hand, and what it refuses; and what it leaves of the list that it is lent.
use colouring::colour;
use sets::refusal::Refusal;
use std::io;
use test_kit::limits::MOST_JOBS;
use test_kit::noise::{fill, is_kept};
use test_kit::refusals::Refused;
use test_kit::tables;
use test_kit::tables::put;

const SEED: u64 = 207;

fn print_answer(rt: &impl Print, reply: Result<usize, Refusal>) -> io::Result<()> {
    match reply {
        Ok(k) => print!(rt; "classes {k}"),
        Err(f) => print!(rt; "refused {}", Refused::from(f)),
    }
}

// Prints what Colour answers, and whether the lent list is as it came.
// Kept: no plainer as a night with defaults: each line below is one call of Colour and shows all that it is lent, wrong lengths too; a struct would name its fields or hide them.
fn run_lent(
    rt: &impl Print,
    n: usize,
    table: &[u64],
    holds: &[u64],
    pins: &[u64],
    classes: &mut [u16],
) -> io::Result<()> {
    fill(classes, SEED);
    print_answer(rt, colour(n, table, holds, pins, classes))?;
    let kept = if is_kept(classes, 0, SEED) {
        ", kept"
    } else {
        ""
    };
    println!(rt; "{kept}")
}

// With 256 numbers lent.
fn run_pinned(
    rt: &impl Print,
    n: usize,
    table: &[u64],
    holds: &[u64],
    pins: &[u64],
) -> io::Result<()> {
    let mut classes = [0u16; MOST_JOBS];
    run_lent(rt, n, table, holds, pins, &mut classes)
}

// And with no pins.
fn run(rt: &impl Print, n: usize, table: &[u64], holds: &[u64]) -> io::Result<()> {
    run_pinned(rt, n, table, holds, &[0, 0, 0, 0])
}

// Prints what Colour answers, and the numbers of six jobs.
fn night_pinned(
    rt: &impl Print,
    table: &[u64],
    n: usize,
    holds: &[u64],
    pins: &[u64],
) -> io::Result<()> {
    let mut classes = [0u16; MOST_JOBS];
    fill(&mut classes, SEED);
    print_answer(rt, colour(n, table, holds, pins, &mut classes))?;
    print!(rt; ", numbers")?;
    for number in classes.iter().take(6) {
        print!(rt; " {number}")?;
    }
    println!(rt)
}

// With no pins.
fn night(rt: &impl Print, table: &[u64], n: usize, holds: &[u64]) -> io::Result<()> {
    night_pinned(rt, table, n, holds, &[0, 0, 0, 0])
}

fn nights(rt: &impl Print) -> io::Result<()> {
    let mut t = [0u64; 20];
    println!(rt; "no jobs")?;
    night(rt, &t[..0], 0, &[0, 0, 0, 0])?;
    println!(rt; "five jobs, none fitting")?;
    night(rt, &t, 5, &[0, 0, 0, 0])?;
    tables::ring(&mut t, 5);
    println!(rt; "ring")?;
    night(rt, &t, 5, &[0, 0, 0, 0])?;
    println!(rt; "ring, job 0 held")?;
    night(rt, &t, 5, &[1, 0, 0, 0])?;
    println!(rt; "ring, all held")?;
    night(rt, &t, 5, &[31, 0, 0, 0])
}

fn pinned_nights(rt: &impl Print) -> io::Result<()> {
    let mut t = [0u64; 20];
    tables::ring(&mut t, 5);
    println!(rt; "ring, job 2 pinned")?;
    night_pinned(rt, &t, 5, &[0, 0, 0, 0], &[4, 0, 0, 0])?;
    println!(rt; "ring, job 2 pinned, job 1 held")?;
    night_pinned(rt, &t, 5, &[2, 0, 0, 0], &[4, 0, 0, 0])?;
    println!(rt; "ring, jobs 0 and 1 pinned")?;
    night_pinned(rt, &t, 5, &[0, 0, 0, 0], &[3, 0, 0, 0])?;
    tables::full(&mut t, 5);
    println!(rt; "five jobs, all fitting, jobs 1 and 3 pinned")?;
    night_pinned(rt, &t, 5, &[0, 0, 0, 0], &[10, 0, 0, 0])
}

// Numbers 1 to 3.
// Kept: no plainer as tables shared with the programs for Check and Search: the three calls lend different things and refuse different numbers, and a program reads as its cases.
fn lengths(rt: &impl Print) -> io::Result<()> {
    let t = [0u64; 20];
    println!(rt; "lengths")?;
    run(rt, 257, &t, &[0, 0, 0, 0])?;
    run(rt, 5, &t[..19], &[0, 0, 0, 0])?;
    run(rt, 4, &t, &[0, 0, 0, 0])?;
    run(rt, 5, &t, &[0, 0, 0])?;
    run(rt, 5, &t, &[0, 0, 0, 0, 0])
}

// Number 4, and which of two comes first.
fn lent_lengths(rt: &impl Print) -> io::Result<()> {
    let t = [0u64; 20];
    let mut few = [0u16; MOST_JOBS - 1];
    let mut many = [0u16; MOST_JOBS + 1];
    let mut none = [0u16; 0];
    run_lent(rt, 5, &t, &[0, 0, 0, 0], &[0, 0, 0, 0], &mut few)?;
    run_lent(rt, 5, &t, &[0, 0, 0, 0], &[0, 0, 0, 0], &mut many)?;
    run_lent(rt, 5, &t, &[0, 0, 0, 0], &[0, 0, 0, 0], &mut none)?;
    run_lent(rt, 257, &t[..3], &[], &[0, 0, 0, 0], &mut none)?;
    run_lent(rt, 5, &t[..3], &[], &[0, 0, 0, 0], &mut none)?;
    run_lent(rt, 5, &t, &[], &[0, 0, 0, 0], &mut none)
}

// 4 before 5.
fn lent_before_marks(rt: &impl Print) -> io::Result<()> {
    let t = [0u64; 20];
    let mut few = [0u16; MOST_JOBS - 1];
    run_lent(rt, 5, &t, &[32, 0, 0, 0], &[0, 0, 0, 0], &mut few)
}

// Number 5: in the holds; in the table, before the holds; in an earlier row; in an earlier column.
fn beyond(rt: &impl Print) -> io::Result<()> {
    let mut t = [0u64; 20];
    println!(rt; "beyond")?;
    run(rt, 5, &t, &[32, 0, 0, 0])?;
    run(rt, 5, &t, &[0, 0, 0, 1 << 63])?;
    put(&mut t, 4, 77);
    run(rt, 5, &t, &[32, 0, 0, 0])?;
    put(&mut t, 2, 255);
    run(rt, 5, &t, &[32, 0, 0, 0])?;
    put(&mut t, 2, 5);
    run(rt, 5, &t, &[0, 0, 0, 0])
}

// Numbers 6 and 7, the first place of each; the whole table is gone through for one number before the next.
fn pairs(rt: &impl Print) -> io::Result<()> {
    let mut t = [0u64; 20];
    println!(rt; "pairs")?;
    put(&mut t, 4, 2);
    run(rt, 5, &t, &[0, 0, 0, 0])?;
    put(&mut t, 1, 3);
    run(rt, 5, &t, &[0, 0, 0, 0])?;
    put(&mut t, 3, 3);
    run(rt, 5, &t, &[0, 0, 0, 0])?;
    put(&mut t, 2, 2);
    run(rt, 5, &t, &[0, 0, 0, 0])?;
    put(&mut t, 4, 5);
    run(rt, 5, &t, &[0, 0, 0, 0])
}

// Number 40: after 1 to 4, before 5.
fn pin_lengths(rt: &impl Print) -> io::Result<()> {
    let mut t = [0u64; 20];
    let mut few = [0u16; MOST_JOBS - 1];
    println!(rt; "pin lengths")?;
    run_pinned(rt, 5, &t, &[0, 0, 0, 0], &[])?;
    run_pinned(rt, 5, &t, &[0, 0, 0, 0], &[0, 0, 0])?;
    run_pinned(rt, 5, &t, &[0, 0, 0, 0], &[0, 0, 0, 0, 0])?;
    run_pinned(rt, 257, &t, &[0, 0, 0, 0], &[])?;
    run_pinned(rt, 5, &t[..19], &[0, 0, 0, 0], &[])?;
    run_pinned(rt, 5, &t, &[0, 0, 0], &[])?;
    run_lent(rt, 5, &t, &[0, 0, 0, 0], &[], &mut few)?;
    put(&mut t, 4, 77);
    run_pinned(rt, 5, &t, &[32, 0, 0, 0], &[0, 0, 0])
}

// Number 5 in the pins: after the table and the holds, before 6.
fn pins_beyond(rt: &impl Print) -> io::Result<()> {
    let mut t = [0u64; 20];
    println!(rt; "pins beyond")?;
    run_pinned(rt, 0, &t[..0], &[0, 0, 0, 0], &[1, 0, 0, 0])?;
    run_pinned(rt, 5, &t, &[0, 0, 0, 0], &[32, 0, 0, 0])?;
    run_pinned(rt, 5, &t, &[0, 0, 0, 0], &[0, 0, 0, 1 << 63])?;
    run_pinned(rt, 5, &t, &[64, 0, 0, 0], &[32, 0, 0, 0])?;
    put(&mut t, 3, 3);
    run_pinned(rt, 5, &t, &[0, 0, 0, 0], &[32, 0, 0, 0])?;
    put(&mut t, 4, 77);
    run_pinned(rt, 5, &t, &[64, 0, 0, 0], &[32, 0, 0, 0])
}

// Numbers 41 and 42: the lowest held pin, before the first two pins that do not fit; both after 7.
fn pin_faults(rt: &impl Print) -> io::Result<()> {
    let mut t = [0u64; 20];
    println!(rt; "pin faults")?;
    tables::ring(&mut t, 5);
    run_pinned(rt, 5, &t, &[4, 0, 0, 0], &[4, 0, 0, 0])?;
    run_pinned(rt, 5, &t, &[6, 0, 0, 0], &[7, 0, 0, 0])?;
    run_pinned(rt, 5, &t, &[8, 0, 0, 0], &[9, 0, 0, 0])?;
    run_pinned(rt, 5, &t, &[0, 0, 0, 0], &[5, 0, 0, 0])?;
    run_pinned(rt, 5, &t, &[0, 0, 0, 0], &[30, 0, 0, 0])?;
    put(&mut t, 4, 2);
    run_pinned(rt, 5, &t, &[4, 0, 0, 0], &[5, 0, 0, 0])?;
    put(&mut t, 3, 3);
    run_pinned(rt, 5, &t, &[4, 0, 0, 0], &[5, 0, 0, 0])
}

pub fn run_refusals(rt: &impl Print) -> io::Result<()> {
    nights(rt)?;
    pinned_nights(rt)?;
    lengths(rt)?;
    lent_lengths(rt)?;
    lent_before_marks(rt)?;
    beyond(rt)?;
    pairs(rt)?;
    pin_lengths(rt)?;
    pins_beyond(rt)?;
    pin_faults(rt)
}
