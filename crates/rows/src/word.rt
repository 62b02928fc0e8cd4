// Going up through a set, word by word and through the jobs of each.
ghost use Rattle.std.specs.Prelude.{◌≡◌, ◌+◌, ◌*◌, ◌≤◌, ◌<◌, ◌++◌, length};
ghost use Rattle.graphs.specs.Jobs.{both};
ghost use Rattle.sets.specs.Words.{jobs};
ghost use Rattle.rows.specs.Rows.{onward};

use sets::jobset::WORD_JOBS;

// The jobs of a word, ascending: those of `rest`, whose lowest bit is job `first`.
#[derive(Clone, Copy, PartialEq, Eq, Debug)]
pub struct WordJobs {
    first: usize,
    rest: u64,
    ghost small: { first + 64 ≤ 256 },
}

impl WordJobs {
    ghost use Rattle.rows.specs.Word.{left_of};

    // The set's jobs in word q. Where they are gone through, those behind may leave the set.
    #[inline]
    pub fn of(set: &[u64], q: usize) -> WordJobs
        requires { (q < length set.now) × (length set.now ≤ 4) }
        ensures { onward (jobs set.now) q ≡ left_of result ++ onward (jobs set.now) (q + 1) }
    {
        WordJobs::at(q, set[q])
    }

    // The jobs in word q of both sets.
    #[inline]
    pub fn of_both(a: &[u64], b: &[u64], q: usize) -> WordJobs
        requires { (q < length a.now) × (length a.now ≤ 4) × (length b.now ≡ length a.now) }
        ensures { onward (both (jobs a.now) (jobs b.now)) q ≡ left_of result ++ onward (both (jobs a.now) (jobs b.now)) (q + 1) }
    {
        WordJobs::at(q, a[q] & b[q])
    }

    // Those whose bits are set in this word, word q of a set.
    #[inline]
    fn at(q: usize, word: u64) -> WordJobs
        requires { q < 4 }
        ensures first { result.first ≡ 64 * q }
        ensures rest { result.rest ≡ word }
    {
        WordJobs {
            first: WORD_JOBS * q,
            rest: word,
        }
    }
}

impl Iterator for WordJobs {
    ghost use Rattle.std.specs.Iterator.{YieldsFirst, item_count};
    ghost use Rattle.rows.specs.Word.{left_of};

    type Item = usize;

    ghost next_gives = { YieldsFirst left_of };

    ghost remaining = { item_count left_of };

    #[inline]
    fn next(&mut self) -> Option<usize> {
        if self.rest == 0 {
            return None;
        }
        let job = self.first + self.rest.trailing_zeros() as usize;
        self.rest &= self.rest - 1;
        Some(job)
    }
}
