#![tactic(auto)]

pub mod head;
pub mod kinds;
pub mod laws;
pub mod opposites;
pub mod part;
pub mod refusal;
pub mod rules;
