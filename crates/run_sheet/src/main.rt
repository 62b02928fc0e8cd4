// Prints the run sheet of the night file on standard input.
#![tactic(auto)]

use sheet::input::read_full;
use sheet::{SHEET_BYTES, lay_out};
use std::io;

// A byte more than the longest night file has: a longer one is seen to be longer.
const FILE_BYTES: usize = 8233;

fn main(rt: HostRuntime) -> io::Result<()> {
    let mut file = [0u8; FILE_BYTES];
    let got = read_full(&mut rt.reader(), &mut file);
    let mut out = [0u8; SHEET_BYTES];
    let length = lay_out(&file[..got], &mut out);
    rt.write_all(&out[..length])
}
