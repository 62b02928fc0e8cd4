// The bytes of a night file, written into a lent output.
ghost use Rattle.std.specs.Prelude.{◌≡◌, ◌+◌, ◌*◌, ◌≤◌, length, cond};
ghost use Rattle.std.proofs.lemmas.List.Edits.{sets};
ghost use mathlib.Core.List.{flat_map};
ghost use Rattle.sets.specs.Words.{jobs};
ghost use Rattle.graphs.specs.Jobs.{up_to};
ghost use Rattle.night.specs.Format.{header, width, set_bytes, row_bytes};

use crate::layout::{FLAGS_AT, JOBS_AT, Layout, MARK, VERSION, VERSION_AT};
use sets::jobset::JobSet;
use sets::table::Table;

// The header.
pub fn put_header(layout: Layout, out: &mut [u8])
    requires { 8 ≤ length out.old }
    ensures { out.new ≡ sets out.old 0 (header layout.n (cond layout.listed 1 0)) }
{
    out[..VERSION_AT].copy_from_slice(&MARK);
    out[VERSION_AT..JOBS_AT].copy_from_slice(&VERSION.to_le_bytes());
    let jobs = layout.n as u16;
    out[JOBS_AT..FLAGS_AT].copy_from_slice(&jobs.to_le_bytes());
    out[FLAGS_AT] = u8::from(layout.listed);
}

// The bytes of a set, as many as fit.
pub fn put_set(set: JobSet, out: &mut [u8])
    requires { length out.old ≤ 32 }
    ensures { out.new ≡ set_bytes (length out.old) (jobs set.words) }
{
    let bytes = set.words.map(u64::to_le_bytes);
    out.copy_from_slice(&bytes.as_flattened()[..out.len()]);
}

// The rows of a table, behind the header.
pub fn put_rows(layout: Layout, table: Table<'_>, out: &mut [u8])
    requires { (layout.n ≡ table.n) × (8 + layout.n * width layout.n ≤ length out.old) }
    ensures { out.new ≡ sets out.old 8 (flat_map (row_bytes (width layout.n) table.entry.words.now) (up_to layout.n)) }
{
    // Kept: rows by number. No plainer over `chunks_exact_mut`, which asks for pieces of a byte at least, where a night of no jobs has none; nor does a contract say what the slice ends as.
    for r in 0..layout.n {
        let at = layout.row_at(r);
        put_set(table.row(r), &mut out[at..at + layout.width()]);
    }
}
