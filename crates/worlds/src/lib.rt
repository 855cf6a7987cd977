#![tactic(auto)]

pub mod few;
pub mod laws;
pub mod literals;
pub mod step;
