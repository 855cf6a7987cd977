#![tactic(auto)]

pub mod bank;
pub mod fault;
pub mod known;
