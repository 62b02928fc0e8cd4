// Read: a night file into a table and its holds. The whole file is checked before a lent word is written.
ghost use Rattle.std.specs.Prelude.{◌≡◌, IfOk};
ghost use Rattle.sets.specs.Refusals.{verdict_of};
ghost use Rattle.sets.specs.Rules.{first_given};
ghost use Rattle.night.specs.Reading.{flagged, jobs_in, table_in, holds_in, word_rules, file_rules};
ghost use Rattle.night.specs.Promises.{ReadPromise};

use crate::decode::NightFile;
use sets::jobset::{SET_WORDS, TABLE_WORDS};
use sets::places::none_at;
use sets::refusal::{Fault, Refusal};
use sets::table::Table;

// Numbers 5, 26, 6 and 7: the table is laid out in words of our own.
fn check_sets(file: NightFile<'_>) -> Result<(), Refusal>
    ensures { let bytes = file.entry.bytes.now in let n = jobs_in bytes in verdict_of result ≡ first_given (word_rules (flagged bytes) n (table_in bytes n) (holds_in bytes n)) }
{
    let n = file.layout.n;
    let mut scratch = [0u64; TABLE_WORDS];
    let words = &mut scratch[..SET_WORDS * n];
    file.fill_rows(words);
    let table = Table { n, words };
    let holds = file.holds();
    none_at(Fault::BeyondJobs, table.first_beyond(holds))?;
    if file.layout.listed && holds.is_empty() {
        return Err(Refusal::Alone(Fault::EmptyHolds));
    }
    table.check_pairs()
}

// All checks of the file alone.
fn check_file(bytes: &[u8]) -> Result<NightFile<'_>, Refusal>
    ensures refused { verdict_of result ≡ first_given (file_rules bytes.now) }
    ensures same { IfOk result (λ file. file.bytes.now ≡ bytes.now) }
{
    let file = NightFile::of(bytes)?;
    check_sets(file)?;
    Ok(file)
}

// Read a night file: fill the table and the holds, and answer the number of jobs; or refuse, and write nothing.
pub fn read(file: &[u8], table: &mut [u64], holds: &mut [u64]) -> Result<usize, Refusal>
    ensures { ReadPromise file.now table.old holds.old result table.new holds.new }
{
    if table.len() != TABLE_WORDS {
        return Err(Refusal::Alone(Fault::TableLength));
    }
    if holds.len() != SET_WORDS {
        return Err(Refusal::Alone(Fault::HoldLength));
    }
    let file = check_file(file)?;
    let end = SET_WORDS * file.layout.n;
    file.fill_rows(&mut table[..end]);
    table[end..].fill(0);
    holds.copy_from_slice(&file.holds().words);
    Ok(file.layout.n)
}
