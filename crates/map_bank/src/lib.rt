#![tactic(auto)]

pub mod map_bank;
mod places;
mod row;
mod steps;
mod successors;
mod table;
mod words;
