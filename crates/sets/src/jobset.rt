// A set of jobs: four 64-bit words, job j is bit j % 64 of word j / 64.
// Each contract says what a function means for the ascending list of the set's jobs.
ghost use Rattle.std.specs.Prelude.{◌≡◌, ◌↔◌, ℕ, ◌+◌, ◌*◌, ◌-◌, ◌^◌, ◌≤◌, [], min, length, IsTrue};
ghost use Rattle.graphs.specs.Jobs.{up_to, has, lowest, both, minus, without};
ghost use Rattle.sets.specs.Words.{jobs, row_jobs, Makes, Wordwise};

// Job numbers are below this; 256 stands for "no job".
pub const MOST_JOBS: usize = 256;

// Jobs in a word, words in a set, and words in a table of the most jobs.
pub const WORD_JOBS: usize = 64;

pub const SET_WORDS: usize = 4;

pub const TABLE_WORDS: usize = SET_WORDS * MOST_JOBS;

#[derive(Clone, Copy, PartialEq, Eq, Debug)]
pub struct JobSet {
    pub words: [u64; 4],
}

// The lowest bits of a word of jobs that starts at job `start`: those of jobs below n.
fn ones_below(n: usize, start: usize) -> u64
    ensures { result ≡ 2 ^ min 64 (n - start) - 1 }
{
    if n <= start {
        return 0;
    }
    let k = n - start;
    if WORD_JOBS <= k {
        return u64::MAX;
    }
    (1u64 << k) - 1
}

impl JobSet {
    // The empty set.
    pub const EMPTY: JobSet = JobSet {
        words: [0, 0, 0, 0],
    };

    // The set of the first n jobs; all 256 where n is more.
    // Kept: four starts written out. As `[0, 64, 128, 192].map(..)`, `returns` got no proof: `IsMapOf` tells of each call at some state of the closure.
    #[tactic(auto, using(crate::proofs::Words::jobs_first))]
    pub fn first(n: usize) -> JobSet
        ensures { jobs result.words ≡ up_to (min 256 n) }
    {
        JobSet {
            words: [
                ones_below(n, 0),
                ones_below(n, 64),
                ones_below(n, 128),
                ones_below(n, 192),
            ],
        }
    }

    // How many jobs are in the set.
    // Kept: four counts written out. As a chain over the words, the bound that `sum` asks for gets no proof (`sum-requires-clause-fits`).
    pub fn size(self) -> usize
        ensures { result ≡ length (jobs self.words) }
    {
        let w = self.words;
        (w[0].count_ones() + w[1].count_ones() + w[2].count_ones() + w[3].count_ones()) as usize
    }

    // The lowest job of the set; 256 where it is empty.
    // Kept: 256 for no job, which the clause promises and docs/PROMISES.md names; `next` answers an Option.
    // Kept: four tests written out. As a loop over the words, Prefer of two equal sizes takes 117 instructions where it took 107 (1.09).
    pub fn lowest(self) -> usize
        ensures { result ≡ lowest (jobs self.words) }
    {
        let w = self.words;
        if w[0] != 0 {
            return w[0].trailing_zeros() as usize;
        }
        if w[1] != 0 {
            return 64 + w[1].trailing_zeros() as usize;
        }
        if w[2] != 0 {
            return 128 + w[2].trailing_zeros() as usize;
        }
        if w[3] != 0 {
            return 192 + w[3].trailing_zeros() as usize;
        }
        MOST_JOBS
    }

    // Whether job j is in the set.
    #[tactic(auto, using(crate::proofs::Words::has_jobs, crate::proofs::Words::has_jobs_none), unfolding(crate::specs::Words::in_words, crate::specs::Words::bit))]
    pub fn has(self, j: usize) -> bool
        ensures { result ≡ has (jobs self.words) j }
    {
        j < MOST_JOBS && (self.words[j / WORD_JOBS] >> (j % WORD_JOBS)) % 2 == 1
    }

    // The set without its lowest job, as one goes up through it.
    pub fn without_lowest(self) -> JobSet
        ensures { jobs result.words ≡ without (lowest (jobs self.words)) (jobs self.words) }
    {
        for (i, word) in self.words.iter().enumerate() {
            if *word != 0 {
                let mut words = self.words;
                words[i] = *word & (*word - 1);
                return JobSet { words };
            }
        }
        self
    }

    // What the operation makes of each word of this set and the other's word.
    // Kept: four words written out. By `array::from_fn` the call is fine and `returns` got no proof: `IsFromFnResult` tells of each call at the state that the last one left.
    fn word_by_word<F: Fn(u64, u64) -> u64>(self, other: JobSet, operation: F) -> JobSet
        requires { F.IsAlwaysCallable operation }
        ensures { (f : ℕ → ℕ → ℕ) → Makes (F.post operation) f → Wordwise f self.words other.words result.words }
    {
        let a = self.words;
        let b = other.words;
        JobSet {
            words: [
                operation(a[0], b[0]),
                operation(a[1], b[1]),
                operation(a[2], b[2]),
                operation(a[3], b[3]),
            ],
        }
    }

    // The jobs of this set that are not in the other.
    pub fn minus(self, other: JobSet) -> JobSet
        ensures { jobs result.words ≡ minus (jobs self.words) (jobs other.words) }
    {
        self.word_by_word(other, |a, b| a & !b)
    }

    // The jobs of this set that are in the other too.
    pub fn both(self, other: JobSet) -> JobSet
        ensures { jobs result.words ≡ both (jobs self.words) (jobs other.words) }
    {
        self.word_by_word(other, |a, b| a & b)
    }

    // Row r of a table: the jobs that r fits.
    // Kept: beside `Table::row`, since docs/PROMISES.md names it, and it asks for the row's words alone.
    pub fn row(table: &[u64], r: usize) -> JobSet
        requires { 4 * r + 4 ≤ length table.now }
        ensures { jobs result.words ≡ row_jobs table.now r }
    {
        from_words(&table[SET_WORDS * r..SET_WORDS * r + SET_WORDS])
    }

    // Whether no job is in the set.
    pub fn is_empty(self) -> bool
        ensures { IsTrue result ↔ jobs self.words ≡ [] }
    {
        self.lowest() == MOST_JOBS
    }
}

// The jobs of the set, ascending.
impl Iterator for JobSet {
    ghost use Rattle.std.specs.Iterator.{YieldsFirst, item_count};

    type Item = usize;

    ghost next_gives = { YieldsFirst (λ set. jobs set.words) };

    ghost remaining = { item_count (λ set. jobs set.words) };

    fn next(&mut self) -> Option<usize> {
        let job = self.lowest();
        if job == MOST_JOBS {
            return None;
        }
        *self = self.without_lowest();
        Some(job)
    }
}

// Four lent words as a set.
pub fn from_words(words: &[u64]) -> JobSet
    requires { length words.now ≡ 4 }
    ensures { result.words ≡ words.now }
{
    JobSet {
        words: words.try_into().unwrap(),
    }
}

// All four words of a set, into lent words.
pub fn store(set: JobSet, words: &mut [u64])
    requires { length words.old ≡ 4 }
    ensures { words.new ≡ set.words }
{
    words.copy_from_slice(&set.words);
}
