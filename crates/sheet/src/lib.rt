// The run sheet: the text that a night file gives.
#![tactic(auto)]

pub mod input;
mod lines;
mod page;

ghost use Rattle.std.specs.Prelude.{◌≡◌};
ghost use Rattle.sheet.specs.Sheet.{sheet_text, Printed};
ghost use Rattle.sheet.specs.Lines.{told_text};

use crate::lines::{Sheet, put_told};
use crate::page::Page;
use night::read::read;
use search::search;
use sets::jobset::{SET_WORDS, TABLE_WORDS, from_words};
use sets::refusal::Refusal;

// Room for the longest sheet.
pub const SHEET_BYTES: usize = 4096;

// The visits that the program allows.
const BUDGET: u64 = 1000000;

// The sheet of a night file, searched with no job pinned; or the refusal.
fn sheet_of(file: &[u8]) -> Result<Sheet, Refusal>
    ensures { told_text result ≡ sheet_text file.now }
{
    let mut table = [0u64; TABLE_WORDS];
    let mut holds = [0u64; SET_WORDS];
    let n = read(file, &mut table, &mut holds)?;
    // Kept: the rows cut out of the room for the most, which `ReadPromise` says that Read fills.
    let end = SET_WORDS * n;
    let pins = [0u64; SET_WORDS];
    let mut kept = [0u64; SET_WORDS];
    let searched = search(n, &table[..end], &holds, &pins, BUDGET, &mut kept)?;
    Ok(Sheet {
        n,
        held: from_words(&holds).size(),
        searched,
        kept: from_words(&kept),
    })
}

// Read a night file, search, and put the text that is to be printed at the start of `out`; the answer is its length.
// Kept: the bytes and the length of their text side by side, as `Printed` promises them.
pub fn lay_out(file: &[u8], out: &mut [u8; SHEET_BYTES]) -> usize
    ensures { Printed (sheet_text file.now) out.old out.new result }
{
    let mut page = Page { bytes: out, at: 0 };
    put_told(&mut page, sheet_of(file));
    page.at
}
