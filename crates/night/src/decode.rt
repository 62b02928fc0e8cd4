// What a night file holds, read from its bytes: its header, its sets, and its table.
ghost use Rattle.std.specs.Prelude.{◌≡◌, ◌+◌, ◌*◌, ◌≤◌, ◌<◌, length, IfOk};
ghost use Rattle.sets.specs.Words.{words};
ghost use Rattle.sets.specs.Refusals.{verdict_of};
ghost use Rattle.sets.specs.Rules.{first_given};
ghost use Rattle.night.specs.Format.{width, file_length};
ghost use Rattle.night.specs.Reading.{marked, number_at, jobs_in, flagged, set_at, row_at, table_in, holds_in, header_rules};

use crate::layout::{FLAGS_AT, HEADER, JOBS_AT, Layout, MARK, SET_BYTES, VERSION, VERSION_AT};
use sets::jobset::{JobSet, MOST_JOBS, SET_WORDS};
use sets::refusal::{Fault, Refusal};

// Whether the file starts with the mark.
#[tactic(auto, using(crate::proofs::Decoding::starts_marked))]
fn is_marked(file: &[u8]) -> bool
    ensures { result ≡ marked file.now }
{
    file.starts_with(&MARK)
}

// The number of the two bytes from `at` on.
#[tactic(auto, unfolding(crate::specs::Reading::number_at))]
fn number_at(file: &[u8], at: usize) -> u16
    requires { at + 1 < length file.now }
    ensures { result ≡ number_at file.now at }
{
    u16::from_le_bytes([file[at], file[at + 1]])
}

// The set of a set's bytes: the lowest byte of a word comes first, and bytes that are left out are 0.
fn set_of(bytes: &[u8]) -> JobSet
    requires { length bytes.now ≤ 32 }
    ensures { result.words ≡ words (set_at bytes.now 0 (length bytes.now)) }
{
    let mut padded = [0u8; SET_BYTES];
    padded[..bytes.len()].copy_from_slice(bytes);
    let (words, _) = padded.as_chunks::<8>();
    // Kept: four words written out. By `array::from_fn`, `from_fn-requires` got no proof: that there are four chunks is not known inside the closure.
    JobSet {
        words: [
            u64::from_le_bytes(words[0]),
            u64::from_le_bytes(words[1]),
            u64::from_le_bytes(words[2]),
            u64::from_le_bytes(words[3]),
        ],
    }
}

// A file whose header no rule refuses: what it says of the jobs and the list is known, and it is as long as that asks.
#[derive(Clone, Copy, PartialEq, Eq, Debug)]
pub struct NightFile<'a> {
    pub bytes: &'a [u8],
    pub layout: Layout,
    ghost jobs: { layout.n ≡ jobs_in bytes.now },
    ghost list: { layout.listed ≡ flagged bytes.now },
    ghost long: { length bytes.now ≡ file_length layout.n layout.listed },
}

impl<'a> NightFile<'a> {
    // Numbers 21, 22, 23, 1, 24 and 25.
    #[tactic(auto, using(crate::proofs::Refusing::header_21, crate::proofs::Refusing::header_22, crate::proofs::Refusing::header_23, crate::proofs::Refusing::header_1, crate::proofs::Refusing::header_24))]
    pub fn of(bytes: &'a [u8]) -> Result<NightFile<'a>, Refusal>
        ensures refused { verdict_of result ≡ first_given (header_rules bytes.now) }
        ensures same { IfOk result (λ file. file.bytes.now ≡ bytes.now) }
    {
        if bytes.len() < HEADER {
            return Err(Refusal::Alone(Fault::ShortFile));
        }
        if !is_marked(bytes) {
            return Err(Refusal::Alone(Fault::WrongMark));
        }
        let version = number_at(bytes, VERSION_AT);
        if version != VERSION {
            return Err(Refusal::Alone(Fault::WrongVersion));
        }
        let n = usize::from(number_at(bytes, JOBS_AT));
        if MOST_JOBS < n {
            return Err(Refusal::Alone(Fault::TooManyJobs));
        }
        // Bit 0 says that a list follows; there is no other flag.
        let flags = bytes[FLAGS_AT];
        let unknown = flags / 2;
        if unknown != 0 {
            return Err(Refusal::Alone(Fault::UnknownFlag));
        }
        let layout = Layout {
            n,
            listed: flags == 1,
        };
        if bytes.len() != layout.length() {
            return Err(Refusal::Alone(Fault::WrongLength));
        }
        Ok(NightFile { bytes, layout })
    }

    // The set of row r; the hold list is row n.
    fn row(self, r: usize) -> JobSet
        requires { (r ≤ self.layout.n) × (8 + r * width self.layout.n + width self.layout.n ≤ length self.bytes.now) }
        ensures { result.words ≡ row_at self.entry.bytes.now (width self.entry.layout.n) r }
    {
        let at = self.layout.row_at(r);
        set_of(&self.bytes[at..at + self.layout.width()])
    }

    // The holds; none without a list.
    // Kept: the empty set for no list, which the clause (`holds_in`) and Read's lent words have for it; number 26 alone asks whether there is one.
    pub fn holds(self) -> JobSet
        ensures { result.words ≡ holds_in self.entry.bytes.now self.entry.layout.n }
    {
        if self.layout.listed {
            self.row(self.layout.n)
        } else {
            JobSet::EMPTY
        }
    }

    // The rows of the table, into four words each.
    pub fn fill_rows(self, rows: &mut [u64])
        requires { length rows.old ≡ 4 * self.layout.n }
        ensures { rows.new ≡ table_in self.entry.bytes.now self.entry.layout.n }
    {
        // Kept: rows by number. Tried over `rows.chunks_exact_mut(SET_WORDS)`: no contract says what the slice ends as, so `returns` stays open.
        for r in 0..self.layout.n {
            let at = SET_WORDS * r;
            rows[at..at + SET_WORDS].copy_from_slice(&self.row(r).words);
        }
    }
}
