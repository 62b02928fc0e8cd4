// Prints the run sheet of each of samples/, and of the longest files; what it prints is compared.
#![tactic(auto)]

use sheet::input::read_full;
use sheet::{SHEET_BYTES, lay_out};
use std::io;
use test_kit::parts::before;

// A byte more than the longest night file has.
const FILE_BYTES: usize = 8233;

// A heading, and what is printed for a file.
fn show(rt: &impl Print, heading: &str, file: &[u8]) -> io::Result<()> {
    let mut out = [0u8; SHEET_BYTES];
    let length = lay_out(file, &mut out);
    println!(rt; "{heading}")?;
    rt.write_all(before(&out, length))
}

// 256 jobs of which no two fit: without a hold list; with the first eight and the last eight held; and a byte too many.
fn longest(rt: &impl Print) -> io::Result<()> {
    let mut file = [0u8; FILE_BYTES];
    file[..8].copy_from_slice(b"PRS\x01\x00\x00\x01\x00");
    show(rt, "256 jobs, none fitting", &file[..8200])?;
    file[7] = 1;
    file[8200] = 255;
    file[8231] = 255;
    show(rt, "256 jobs, 16 held", &file[..8232])?;
    show(rt, "a byte too many", &file)
}

// The night on standard input, samples/unfinished.night: the budget ends its search.
fn unfinished(rt: &(impl Input + Print)) -> io::Result<()> {
    let mut file = [0u8; 2056];
    let got = read_full(&mut rt.reader(), &mut file);
    show(rt, "128 jobs, unfinished", before(&file, got))
}

// Headings and files: nights that are searched to their end, then files of which something is refused.
const FILES: [(&str, &[u8]); 15] = [
    ("ring", b"PRS\x01\x00\x05\x00\x00\x12\x05\x0a\x14\x09"),
    (
        "ring, job 0 held",
        b"PRS\x01\x00\x05\x00\x01\x12\x05\x0a\x14\x09\x01",
    ),
    (
        "twelve jobs, 4 and 7 held",
        b"PRS\x01\x00\x0c\x00\x01\x2a\x01\x51\x0a\x88\x04\x25\x01\x42\x0a\x49\x01\x32\x0a\x04\x0c\x29\x04\x52\x08\x84\x01\xd2\x02\x90\x00",
    ),
    ("no jobs", b"PRS\x01\x00\x00\x00\x00"),
    ("file under 8 bytes", b"PRS\x01\x00\x05\x00"),
    ("mark wrong", b"PRT\x01\x00\x05\x00\x00\x12\x05\x0a\x14\x09"),
    (
        "version not 1",
        b"PRS\x01\x01\x05\x00\x00\x12\x05\x0a\x14\x09",
    ),
    ("n over 256", b"PRS\x01\x00\x01\x01\x00\x12\x05\x0a\x14\x09"),
    (
        "an unknown flag bit set",
        b"PRS\x01\x00\x05\x00\x02\x12\x05\x0a\x14\x09",
    ),
    (
        "total length wrong",
        b"PRS\x01\x00\x05\x00\x00\x12\x05\x0a\x14\x09\x00",
    ),
    (
        "a bit for a job n or above, in a row",
        b"PRS\x01\x00\x05\x00\x00\x12\x05\x4a\x14\x09",
    ),
    (
        "a bit for a job n or above, in the hold list",
        b"PRS\x01\x00\x05\x00\x01\x12\x05\x0a\x14\x09\x81",
    ),
    (
        "hold list present but empty",
        b"PRS\x01\x00\x05\x00\x01\x12\x05\x0a\x14\x09\x00",
    ),
    (
        "a job fits itself",
        b"PRS\x01\x00\x05\x00\x00\x12\x05\x0a\x1c\x09",
    ),
    (
        "bit (r,c) differs from bit (c,r)",
        b"PRS\x01\x00\x02\x00\x00\x02\x00",
    ),
];

fn short_files(rt: &impl Print) -> io::Result<()> {
    for (heading, file) in FILES {
        show(rt, heading, file)?;
    }
    Ok(())
}

fn main(rt: HostRuntime) -> io::Result<()> {
    short_files(&rt)?;
    longest(&rt)?;
    unfinished(&rt)
}
