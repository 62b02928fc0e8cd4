// Files for many n, written, read and written again; and one damaged file or table for every refusal.
// The bytes' digest is (31 d + byte) % 65521, from 0; what is expected was computed apart from this code.
#![tactic(auto)]

ghost use Rattle.std.specs.Prelude.{◌≤◌};

use night::read::read;
use night::write::write;
use std::io;
use test_kit::limits::{SET_WORDS, TABLE_WORDS};
use test_kit::parts::{before, behind, rows};
use test_kit::refusals::Refused;
use test_kit::tables::put;

// The room for a file, and the byte that it has before.
const ROOM: usize = 8300;

const BEFORE: u8 = 170;

fn kept_or_changed(kept: bool) -> &'static str {
    if kept { "kept" } else { "CHANGED" }
}

fn same_or_other(same: bool) -> &'static str {
    if same { "same" } else { "OTHER" }
}

fn digest(bytes: &[u8]) -> u16 {
    bytes.iter().fold(
        0,
        |digest, byte| ((31 * u32::from(digest) + u32::from(*byte)) % 65521) as u16,
    )
}

// The pairs of the table: different jobs r and c with (r + c) % 3 == 1.
// Kept: no plainer as one function with that of dimacs_test: a closure with its clause for the two loops alone, where the test of a pair is one line and here has no labels.
fn set_table(n: usize, table: &mut [u64]) {
    for r in 0..n {
        for c in 0..n {
            if r != c && (r % 3 + c % 3) % 3 == 1 {
                put(table, r, c);
            }
        }
    }
}

// Every fifth job is held, from job 0 on.
fn set_holds(n: usize, holds: &mut [u64]) {
    for j in (0..n).step_by(5) {
        put(holds, 0, j);
    }
}

// Write the table of n jobs, with holds below job `held`, read it back, and write what was read.
fn round(rt: &impl Print, n: usize, held: usize) -> io::Result<()> {
    let mut table = [0u64; TABLE_WORDS];
    let mut holds = [0u64; SET_WORDS];
    let mut file = [BEFORE; ROOM];
    set_table(n, &mut table);
    set_holds(held, &mut holds);
    print!(rt; "n {n}")?;
    match write(n, rows(&table, n), &holds, &mut file) {
        Ok(length) => go_back(rt, &table, &holds, &file, length)?,
        Err(_) => print!(rt; " not written")?,
    }
    println!(rt)
}

// The file has this length, and nothing is written behind it.
fn go_back(
    rt: &impl Print,
    table: &[u64],
    holds: &[u64],
    out: &[u8],
    length: usize,
) -> io::Result<()> {
    let file = before(out, length);
    let kept = behind(out, length).iter().all(|byte| *byte == BEFORE);
    print!(rt;
        " length {length} digest {} behind {}",
        digest(file),
        kept_or_changed(kept)
    )?;
    come_back(rt, table, holds, file)
}

// Read the file: the table and the holds are there again, and are written to the same bytes.
fn come_back(rt: &impl Print, table: &[u64], holds: &[u64], file: &[u8]) -> io::Result<()> {
    let mut table_back = [7u64; TABLE_WORDS];
    let mut holds_back = [7u64; SET_WORDS];
    let mut again = [0u8; ROOM];
    let Ok(n) = read(file, &mut table_back, &mut holds_back) else {
        return print!(rt; " not read");
    };
    print!(rt;
        " jobs {n} table {}",
        same_or_other(table == table_back.as_slice())
    )?;
    print!(rt; " holds {}", same_or_other(holds == holds_back.as_slice()))?;
    let answer = write(n, rows(&table_back, n), &holds_back, &mut again);
    let same = answer.is_ok_and(|length| file == before(&again, length));
    print!(rt; " bytes {}", same_or_other(same))
}

// Read a file into words of 7, and say what came back.
fn read_into(rt: &impl Print, file: &[u8], table: &mut [u64], holds: &mut [u64]) -> io::Result<()> {
    match read(file, table, holds) {
        Ok(n) => {
            let [first, fifth, held] = [table.first(), table.get(16), holds.first()].map(|word| word
                .copied()
                .unwrap_or(0));
            println!(rt; "read jobs {n} {first} {fifth} {held}")
        }
        Err(f) => {
            let table_kept = kept_or_changed(table.iter().all(|word| *word == 7));
            let holds_kept = kept_or_changed(holds.iter().all(|word| *word == 7));
            println!(rt;
                "read {} table {table_kept} holds {holds_kept}",
                Refused::from(f)
            )
        }
    }
}

fn try_read(rt: &impl Print, file: &[u8]) -> io::Result<()> {
    let mut table = [7u64; TABLE_WORDS];
    let mut holds = [7u64; SET_WORDS];
    read_into(rt, file, &mut table, &mut holds)
}

// Write a table into bytes that are lent, and say what came back.
fn write_into(
    rt: &impl Print,
    n: usize,
    table: &[u64],
    holds: &[u64],
    out: &mut [u8],
) -> io::Result<()> {
    match write(n, table, holds, out) {
        Ok(length) => println!(rt; "write length {length} digest {}", digest(out)),
        Err(f) => {
            let kept = out.iter().all(|byte| *byte == BEFORE);
            println!(rt; "write {} out {}", Refused::from(f), kept_or_changed(kept))
        }
    }
}

// With so many bytes lent.
fn try_write(rt: &impl Print, lent: usize, n: usize, table: &[u64], holds: &[u64]) -> io::Result<()>
    requires { lent ≤ 32 }
{
    let mut out = [BEFORE; 32];
    write_into(rt, n, table, holds, &mut out[..lent])
}

fn rounds(rt: &impl Print) -> io::Result<()> {
    for n in [0, 1, 7, 8, 9, 63, 64, 65, 128, 255, 256] {
        round(rt, n, 0)?;
        round(rt, n, n)?;
    }
    Ok(())
}

// The ring of the run sheet, then one file for every refusal of Read, in its order.
fn damaged_files(rt: &impl Print) -> io::Result<()> {
    let mut table = [7u64; TABLE_WORDS];
    let mut holds = [7u64; SET_WORDS];
    let ring = b"PRS\x01\x00\x05\x00\x00\x12\x05\x0A\x14\x09";
    try_read(rt, ring)?;
    try_read(rt, b"PRS\x01\x00\x05\x00\x01\x12\x05\x0A\x14\x09\x11")?;
    read_into(rt, ring, &mut table[1..], &mut holds)?;
    read_into(rt, ring, &mut table, &mut holds[1..])?;
    try_read(rt, b"PRS\x01\x00\x00\x00")?;
    try_read(rt, b"PRT\x01\x00\x00\x00\x00")?;
    try_read(rt, b"PRS\x02\x00\x00\x00\x00")?;
    try_read(rt, b"PRS\x01\x01\x00\x00\x00")?;
    try_read(rt, b"PRS\x01\x00\x01\x01\x00")?;
    try_read(rt, b"PRS\x01\x00\x00\x00\x02")?;
    try_read(rt, b"PRS\x01\x00\x05\x00\x00\x12\x05\x0A\x14")?;
    try_read(rt, b"PRS\x01\x00\x05\x00\x00\x12\x05\x0A\x14\x09\x00")?;
    try_read(rt, b"PRS\x01\x00\x05\x00\x01\x12\x05\x0A\x14\x09")?;
    try_read(rt, b"PRS\x01\x00\x05\x00\x00\x12\x05\x4A\x34\x09")?;
    try_read(rt, b"PRS\x01\x00\x05\x00\x01\x12\x05\x0A\x14\x09\x21")?;
    try_read(rt, b"PRS\x01\x00\x05\x00\x01\x13\x05\x0A\x14\x09\x00")?;
    try_read(rt, b"PRS\x01\x00\x00\x00\x01")?;
    try_read(rt, b"PRS\x01\x00\x05\x00\x00\x12\x07\x0A\x14\x08")?;
    try_read(rt, b"PRS\x01\x00\x02\x00\x00\x02\x00")
}

// Two tables that fit their output, then one for every refusal of Write, in its order.
fn damaged_tables(rt: &impl Print) -> io::Result<()> {
    let none = [0u64; 4];
    let held = [1u64, 0, 0, 0];
    let beyond = [0u64, 0, 0, 1];
    let pair = [2u64, 0, 0, 0, 1, 0, 0, 0];
    let half = [2u64, 0, 0, 0, 0, 0, 0, 0];
    let outside = [2u64, 0, 0, 0];
    let three = [0u64; 3];
    try_write(rt, 10, 2, &pair, &none)?;
    try_write(rt, 32, 2, &pair, &held)?;
    try_write(rt, 32, 257, &none, &none)?;
    try_write(rt, 32, 2, &none, &none)?;
    try_write(rt, 32, 1, &none, &three)?;
    try_write(rt, 32, 1, &outside, &none)?;
    try_write(rt, 32, 2, &pair, &beyond)?;
    try_write(rt, 32, 1, &held, &none)?;
    try_write(rt, 32, 2, &half, &none)?;
    try_write(rt, 9, 2, &pair, &none)?;
    try_write(rt, 10, 2, &pair, &held)
}

fn main(rt: HostRuntime) -> io::Result<()> {
    rounds(&rt)?;
    damaged_files(&rt)?;
    damaged_tables(&rt)
}
