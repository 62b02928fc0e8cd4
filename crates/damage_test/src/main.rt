// Damaged night files: Read against a plain rendering of document 01's table.
// A line for each way of damage: the files, on how many the two agree, and how many were accepted or refused with each number.
// To agree, answer, number, place and every lent word must be right.
#![tactic(auto)]

mod faults;
mod good;
mod layout;
mod plain;

use crate::faults::Fault;
use night::read::read;
use std::{fmt, io};
use test_kit::counts::{add, count};
use test_kit::limits::{SET_WORDS, TABLE_WORDS};
use test_kit::noise::{below, draw, fill, is_kept};
use test_kit::parts::before;
use test_kit::refusals::Refused;

// More than any refusal's number.
const NUMBERS: usize = 128;

// How many files there were, on how many the two agreed, how many were accepted, and how many were refused with each number.
// Kept: a count for each number of document 01's table, by the number: fields or an enum would be the planner's list of them once more.
#[derive(Clone, Copy)]
struct Tally {
    files: usize,
    agreed: usize,
    accepted: usize,
    refused: [usize; NUMBERS],
}

impl Tally {
    const NONE: Tally = Tally {
        files: 0,
        agreed: 0,
        accepted: 0,
        refused: [0; NUMBERS],
    };

    // One more file.
    fn note(&mut self, answer: Result<usize, Refused>, agrees: bool) {
        add(&mut self.files, 1);
        count(&mut self.agreed, agrees);
        match answer {
            Ok(_) => add(&mut self.accepted, 1),
            Err(refused) => {
                if let Some(times) = self.refused.get_mut(refused.number()) {
                    add(times, 1);
                }
            }
        }
    }

    fn add(&mut self, more: &Tally) {
        add(&mut self.files, more.files);
        add(&mut self.agreed, more.agreed);
        add(&mut self.accepted, more.accepted);
        for (times, more_times) in self.refused.iter_mut().zip(more.refused.iter()) {
            add(times, *more_times);
        }
    }
}

impl fmt::Display for Tally {
    fn fmt<W: fmt::Write>(&self, f: &mut fmt::Formatter<W>) -> fmt::Result {
        write!(
            f,
            "{} files, {} agreed; accepted {}",
            self.files, self.agreed, self.accepted
        )?;
        for (number, times) in self.refused.iter().enumerate() {
            if *times != 0 {
                write!(f, ", {number}: {times}")?;
            }
        }
        Ok(())
    }
}

// What Read answers.
fn ask(file: &[u8], table: &mut [u64], holds: &mut [u64]) -> Result<usize, Refused> {
    read(file, table, holds).map_err(Refused::from)
}

// Whether the first words, up to so many, are those wanted by their index.
fn are_words<F: Fn(usize) -> u64>(words: &[u64], most: usize, wanted: F) -> bool
    requires { F.IsAlwaysCallable wanted }
{
    words
        .iter()
        .take(most)
        .enumerate()
        .all(|(i, word)| *word == wanted(i))
}

// What is in the words after an answer: the file, or the noise as it came; noise past what was lent.
fn are_right(
    wanted: Result<usize, Refused>,
    file: &[u8],
    table: &[u64],
    holds: &[u64],
    seed: u64,
) -> bool {
    let hold_seed = draw(seed, 1);
    match wanted {
        Ok(n) => {
            is_kept(table, TABLE_WORDS, seed)
                && is_kept(holds, SET_WORDS, hold_seed)
                && are_words(table, TABLE_WORDS, |i| plain::table_word(file, n, i))
                && are_words(holds, SET_WORDS, |i| plain::hold_word(file, n, i))
        }
        Err(_) => is_kept(table, 0, seed) && is_kept(holds, 0, hold_seed),
    }
}

// How many words of each kind are lent.
#[derive(Clone, Copy)]
struct Lent {
    table: usize,
    holds: usize,
}

// Another number at times.
fn about(words: usize, seed: u64, place: u64) -> usize {
    match below(seed, place, 5) {
        0 => 0,
        1 => words.wrapping_sub(1),
        2 => words.wrapping_add(1),
        _ => words,
    }
}

impl Lent {
    fn of(fault: Fault, seed: u64) -> Lent {
        if faults::is_of_lent_words(fault) {
            return Lent {
                table: about(TABLE_WORDS, seed, 7),
                holds: about(SET_WORDS, seed, 8),
            };
        }
        Lent {
            table: TABLE_WORDS,
            holds: SET_WORDS,
        }
    }
}

// Whether Read is right on a file and so many words of each kind.
fn compare(tally: &mut Tally, file: &[u8], lent: Lent, seed: u64) {
    let mut table = [0u64; TABLE_WORDS + 1];
    let mut holds = [0u64; SET_WORDS + 1];
    fill(&mut table, seed);
    fill(&mut holds, draw(seed, 1));
    let table_words = lent.table.min(TABLE_WORDS + 1);
    let hold_words = lent.holds.min(SET_WORDS + 1);
    let got = ask(file, &mut table[..table_words], &mut holds[..hold_words]);
    let wanted = plain::expected(file, table_words, hold_words);
    let agrees = got == wanted && are_right(wanted, file, &table, &holds, seed);
    tally.note(got, agrees);
}

// Builds a file, damages it and compares.
fn trial(tally: &mut Tally, fault: Fault, seed: u64) {
    let mut draft = good::build(seed);
    faults::damage(fault, &mut draft, seed);
    let file = before(&draft.room, draft.length);
    compare(tally, file, Lent::of(fault, seed), draw(seed, 9));
}

// The families: name, fault, how many files, and a seed.
const FAMILIES: [(&str, Fault, u64, u64); 25] = [
    ("not damaged", Fault::Nothing, 300, 1),
    ("one bit of the header", Fault::HeaderBit, 400, 2),
    ("mark", Fault::Mark, 200, 3),
    ("version", Fault::Version, 200, 4),
    ("number of jobs", Fault::Jobs, 400, 5),
    ("flags", Fault::Flags, 300, 6),
    ("cut", Fault::Cut, 400, 7),
    ("lengthened", Fault::Longer, 300, 8),
    ("last row for list", Fault::ListForRow, 300, 9),
    ("one bit of the body", Fault::BodyBit, 400, 10),
    ("one padding bit", Fault::PaddingBit, 400, 11),
    ("a job with itself", Fault::Itself, 300, 12),
    ("a pair one way", Fault::OneWay, 300, 13),
    ("a pair both ways", Fault::BothWays, 300, 14),
    ("one held job", Fault::HoldBit, 300, 15),
    ("hold list zeroed", Fault::NoHolds, 300, 16),
    ("one byte", Fault::Byte, 400, 17),
    ("noise", Fault::Noise, 300, 18),
    ("noise, header kept", Fault::NoisyHeader, 400, 19),
    ("noise for the body", Fault::NoisyBody, 400, 20),
    ("faults of the header", Fault::SomeOfHeader, 500, 21),
    ("faults of the body", Fault::SomeOfBody, 800, 22),
    ("faults of both", Fault::SomeOfAll, 400, 23),
    ("lent words, not damaged", Fault::LentWords, 300, 24),
    ("lent words, damaged", Fault::LentAndSome, 300, 25),
];

fn main(rt: HostRuntime) -> io::Result<()> {
    let mut total = Tally::NONE;
    for (name, fault, files, seed) in FAMILIES {
        let mut tally = Tally::NONE;
        for i in 0..files {
            trial(&mut tally, fault, draw(seed, i));
        }
        println!(rt; "{name}: {tally}")?;
        total.add(&tally);
    }
    println!(rt; "all: {total}")
}
