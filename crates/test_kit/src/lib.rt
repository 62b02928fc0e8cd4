// What the test programs share: printing, tables, noise and plain searches. Nothing here asks the planner for what is expected of it.
#![tactic(auto)]

pub mod counts;
pub mod families;
pub mod generated;
pub mod limits;
pub mod noise;
pub mod packed;
pub mod parts;
pub mod plain;
pub mod plain_clique;
pub mod plain_walk;
pub mod print;
pub mod refusals;
pub mod tables;
