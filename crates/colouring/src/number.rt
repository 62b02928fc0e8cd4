// The number of each job's class: 0 for the class opened first, and so on.
ghost use Rattle.std.specs.Prelude.{◌≡◌, ◌*◌, ◌≤◌, length};
ghost use Rattle.graphs.specs.Colouring.{class_of};
ghost use Rattle.sets.specs.Words.{jobs, fits};
ghost use Rattle.sets.specs.Tables.{Accepted};
ghost use Rattle.sets.specs.Tables.{Inside};
ghost use Rattle.colouring.specs.Numbers.{sets_in, numbers_of, Numbered};

use crate::greedy::{Classes, greedy_classes};
use rows::pack::{narrow, pack, width_of};
use rows::packed::Rows;
use rows::set::has_in;
use sets::jobset::{JobSet, MOST_JOBS, SET_WORDS, TABLE_WORDS};

// What stands for the class of a job that is in none.
// Kept: the C interface: the classes are handed out as 16-bit numbers, one for each of 256 jobs.
pub const NO_CLASS: u16 = 65535;

impl<'a> Classes<'a> {
    // The number of the class of job j.
    fn class_of(&self, j: usize) -> u16
        requires { self.now.k ≤ 256 }
        ensures { result ≡ class_of (sets_in self.now.sets.width self.now.sets.words.now self.now.k) j }
    {
        match (0..self.k).find(|i| has_in(self.sets.row(*i), j)) {
            Some(i) => i as u16,
            None => NO_CLASS,
        }
    }

    // The class of every job.
    fn number_jobs(&self, numbers: &mut [u16])
        requires { (self.now.k ≤ 256) × (length numbers.old ≡ 256) }
        ensures { numbers.new ≡ numbers_of (sets_in self.now.sets.width self.now.sets.words.now self.now.k) }
    {
        for (j, number) in numbers.iter_mut().enumerate() {
            *number = self.class_of(j);
        }
    }
}

// The greedy classes of p, candidates of a night of n jobs, as numbers; how many classes there are.
pub fn number_classes(n: usize, table: &[u64], p: JobSet, numbers: &mut [u16]) -> usize
    requires accepted { Accepted n table.now }
    requires inside { Inside n (jobs p.words) }
    requires numbers_len { length numbers.old ≡ 256 }
    ensures { Numbered (fits table.now) (jobs p.words) result numbers.new }
{
    // The rooms first: they are cleared at entry, and no second time here.
    let mut packed = [0u64; TABLE_WORDS];
    let mut words = [0u64; SET_WORDS];
    let mut room = [0u64; TABLE_WORDS];
    let width = width_of(n);
    let rows = &mut packed[..width * n];
    pack(table, n, width, rows);
    let set = &mut words[..width];
    narrow(p, set);
    // There are no more classes than jobs: all of them are asked for, and all are told.
    let rows = Rows { words: rows, width };
    let k = greedy_classes(rows, 0, set, MOST_JOBS, &mut room).unwrap();
    let sets = Rows {
        words: &room,
        width,
    };
    Classes { sets, k }.number_jobs(numbers);
    k
}
