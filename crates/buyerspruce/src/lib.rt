// The planner for C, C++ and Rust: the six public calls over numbers and slices, each a pointer and a length.
// Every reply is four numbers in one layout (specs/Reply.antt); each call also returns the first of them.
// A file for each call; that of Search is not called `search`, since a crate below is.
#![tactic(auto)]

pub mod check;
pub mod colour;
pub mod prefer;
pub mod read;
mod reply;
pub mod search_call;
pub mod write;
