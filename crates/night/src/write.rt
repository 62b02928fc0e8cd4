// Write: a table and its holds into a night file.
ghost use Rattle.std.specs.Prelude.{◌≡◌, ◌≤◌, length, drop, ◌++◌};
ghost use Rattle.night.specs.Format.{bytes, held, file_length};
ghost use Rattle.night.specs.Versions.{one};
ghost use Rattle.night.specs.Promises.{WritePromise};

use crate::encode::{put_header, put_rows, put_set};
use crate::layout::Layout;
use sets::jobset::{JobSet, SET_WORDS, from_words};
use sets::refusal::{Fault, Refusal};
use sets::table::Table;

// Every byte of the file; the output is long enough.
fn put_file(layout: Layout, table: Table<'_>, holds: JobSet, out: &mut [u8])
    requires { (layout.n ≡ table.n) × (layout.listed ≡ held holds.words) × (file_length layout.n (held holds.words) ≤ length out.old) }
    ensures { out.new ≡ bytes layout.n table.entry.words.now holds.words ++ drop (file_length layout.n (held holds.words)) out.old }
{
    put_header(layout, out);
    put_rows(layout, table, out);
    if layout.listed {
        let at = layout.row_at(layout.n);
        put_set(holds, &mut out[at..at + layout.width()]);
    }
}

// Write a night file, version 1: answer its length; or refuse, and write nothing.
pub fn write(n: usize, table: &[u64], holds: &[u64], out: &mut [u8]) -> Result<usize, Refusal>
    ensures { WritePromise one n table.now holds.now out.old result out.new }
{
    let table = Table::of(n, table)?;
    if holds.len() != SET_WORDS {
        return Err(Refusal::Alone(Fault::HoldLength));
    }
    let holds = from_words(holds);
    table.check(holds)?;
    let layout = Layout {
        n,
        listed: !holds.is_empty(),
    };
    let length = layout.length();
    if out.len() < length {
        return Err(Refusal::Alone(Fault::ShortOutput));
    }
    put_file(layout, table, holds, out);
    Ok(length)
}
