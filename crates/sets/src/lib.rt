// The job set, the table and its checks, and the two calls that need no more: Check and Prefer.
#![tactic(auto)]

pub mod check;
pub mod jobset;
pub mod places;
pub mod prefer;
pub mod refusal;
pub mod table;
