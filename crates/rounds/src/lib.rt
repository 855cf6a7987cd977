#![tactic(auto)]

pub mod graph;
mod rounds;
pub mod settle;
