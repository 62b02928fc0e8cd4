// Sets and rows as wide as the night: parts of lent room, one word for each 64 jobs.
#![tactic(auto)]

pub mod pack;
pub mod packed;
pub mod set;
pub mod word;
