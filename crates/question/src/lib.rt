// The question that Search and Colour are asked: what is refused of it, and where a walk or a colouring of it starts.
#![tactic(auto)]

pub mod check;
pub mod start;
