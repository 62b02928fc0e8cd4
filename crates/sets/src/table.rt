// A table with its size, and what is refused of it: the rules 1, 2, 5, 6 and 7, and two jobs of a set that do not fit.
ghost use Rattle.std.specs.Prelude.{◌≡◌, [], ◌∷◌, ◌+◌, ◌*◌, ◌≤◌, ◌<◌, length, IfOk};
ghost use Rattle.sets.specs.Words.{fits, jobs, row_jobs};
ghost use Rattle.sets.specs.Places.{first_place, place_of};
ghost use Rattle.sets.specs.Tables.{beyond, itself, one_way, misfit, no1, no2, no5, no6, no7};
ghost use Rattle.sets.specs.Rules.{first_given};
ghost use Rattle.sets.specs.Refusals.{verdict_of};

use crate::jobset::{JobSet, MOST_JOBS, SET_WORDS, WORD_JOBS};
use crate::places::{Place, first_place, none_at};
use crate::refusal::{Fault, Refusal};

// n rows of four words: bit c of row r says that r and c fit.
#[derive(Clone, Copy, PartialEq, Eq, Debug)]
pub struct Table<'a> {
    pub n: usize,
    pub words: &'a [u64],
    ghost few: { n ≤ 256 },
    ghost long: { length words.now ≡ 4 * n },
}

impl<'a> Table<'a> {
    // The lent words as a table of n jobs: numbers 1 and 2.
    pub fn of(n: usize, words: &'a [u64]) -> Result<Table<'a>, Refusal>
        ensures refused { verdict_of result ≡ first_given (no1 n ∷ no2 n words.now ∷ []) }
        ensures made { IfOk result (λ table. (table.n ≡ n) × (table.words ≡ words.entry)) }
    {
        if MOST_JOBS < n {
            return Err(Refusal::Alone(Fault::TooManyJobs));
        }
        if words.len() != SET_WORDS * n {
            return Err(Refusal::Alone(Fault::TableLength));
        }
        Ok(Table { n, words })
    }

    // Row r: the jobs that r fits.
    pub fn row(&self, r: usize) -> JobSet
        requires { r < self.now.n }
        ensures { jobs result.words ≡ row_jobs self.now.words.now r }
    {
        JobSet::row(self.words, r)
    }

    // Whether r and c fit: bit c of row r.
    #[tactic(auto, using(crate::proofs::Tables::fits_word), unfolding(crate::specs::Words::bit))]
    pub fn fits(&self, r: usize, c: usize) -> bool
        requires { (r < self.now.n) × (c < 256) }
        ensures { result ≡ fits self.now.words.now r c }
    {
        (self.words[SET_WORDS * r + c / WORD_JOBS] >> (c % WORD_JOBS)) % 2 == 1
    }

    // Number 5: a bit for a job n or above. Row n is the set.
    #[tactic(auto, using(crate::proofs::Tables::beyond_low, crate::proofs::Tables::beyond_row, crate::proofs::Tables::beyond_set))]
    fn is_beyond(&self, set: JobSet, r: usize, c: usize) -> bool
        requires { (r < self.now.n + 1) × (c < 256) }
        ensures { result ≡ beyond self.now.n self.now.words.now set.words r c }
    {
        if c < self.n {
            false
        } else if r < self.n {
            self.fits(r, c)
        } else {
            set.has(c)
        }
    }

    // Number 6: a job fits itself.
    #[tactic(auto, using(crate::proofs::Tables::itself_no, crate::proofs::Tables::itself_yes))]
    fn is_itself(&self, r: usize, c: usize) -> bool
        requires { (r < self.now.n) × (c < self.now.n) }
        ensures { result ≡ itself self.now.words.now r c }
    {
        r == c && self.fits(r, c)
    }

    // Number 7: bit (r, c) differs from bit (c, r).
    #[tactic(auto, unfolding(crate::specs::Tables::one_way))]
    fn is_one_way(&self, r: usize, c: usize) -> bool
        requires { (r < self.now.n) × (c < self.now.n) }
        ensures { result ≡ one_way self.now.words.now r c }
    {
        self.fits(r, c) != self.fits(c, r)
    }

    // Two different jobs of the set that do not fit.
    #[tactic(auto, using(crate::proofs::Tables::misfit_same, crate::proofs::Tables::misfit_fits, crate::proofs::Tables::misfit_in, crate::proofs::Tables::misfit_out))]
    fn is_misfit(&self, set: JobSet, r: usize, c: usize) -> bool
        requires { (r < self.now.n) × (c < self.now.n) }
        ensures { result ≡ misfit self.now.words.now set.words r c }
    {
        r != c && !self.fits(r, c) && set.has(r) && set.has(c)
    }

    // The first place at which the table, or the set as row n, has a bit for a job n or above.
    pub fn first_beyond(&self, set: JobSet) -> Option<Place>
        ensures { place_of result ≡ first_place (beyond self.now.n self.now.words.now set.words) (self.now.n + 1) 256 }
    {
        first_place(self.n + 1, MOST_JOBS, |r, c| self.is_beyond(set, r, c))
    }

    // The first two jobs of the set that do not fit.
    pub fn first_misfit(&self, set: JobSet) -> Option<Place>
        ensures { place_of result ≡ first_place (misfit self.now.words.now set.words) self.now.n self.now.n }
    {
        first_place(self.n, self.n, |r, c| self.is_misfit(set, r, c))
    }

    // The first job that fits itself.
    pub fn first_self_pair(&self) -> Option<Place>
        ensures { place_of result ≡ first_place (itself self.now.words.now) self.now.n self.now.n }
    {
        first_place(self.n, self.n, |r, c| self.is_itself(r, c))
    }

    // The first pair of which only one fits the other.
    pub fn first_one_way(&self) -> Option<Place>
        ensures { place_of result ≡ first_place (one_way self.now.words.now) self.now.n self.now.n }
    {
        first_place(self.n, self.n, |r, c| self.is_one_way(r, c))
    }

    // Numbers 6 and 7, in that order.
    pub fn check_pairs(&self) -> Result<(), Refusal>
        ensures { verdict_of result ≡ first_given (no6 self.now.n self.now.words.now ∷ no7 self.now.n self.now.words.now ∷ []) }
    {
        none_at(Fault::SelfPair, self.first_self_pair())?;
        none_at(Fault::OneWay, self.first_one_way())
    }

    // Numbers 5, 6 and 7, in that order; the set is row n.
    pub fn check(&self, set: JobSet) -> Result<(), Refusal>
        ensures { verdict_of result ≡ first_given (no5 self.now.n self.now.words.now set.words ∷ no6 self.now.n self.now.words.now ∷ no7 self.now.n self.now.words.now ∷ []) }
    {
        none_at(Fault::BeyondJobs, self.first_beyond(set))?;
        self.check_pairs()
    }
}
