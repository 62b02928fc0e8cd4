// The limits of document 01, written here and not taken from the planner.

pub const MOST_JOBS: usize = 256;

// A set is so many words, and each has a bit for so many jobs.
pub const SET_WORDS: usize = 4;

pub const WORD_JOBS: usize = 64;

// The words of a table of the most jobs.
pub const TABLE_WORDS: usize = MOST_JOBS * SET_WORDS;

// What a colouring has for a job that is in no class.
pub const NO_CLASS: u16 = 65535;
