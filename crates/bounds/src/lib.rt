// Step 5's other bounds on what the candidates can still give: the matching and dominance.
#![tactic(auto)]

pub mod dominance;
pub mod matching;
