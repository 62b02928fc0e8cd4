// The night file, version 1: Read and Write.
#![tactic(auto)]

mod decode;
mod encode;
mod layout;
pub mod read;
pub mod write;
