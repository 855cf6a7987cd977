#![tactic(auto)]

mod action_draft;
mod append;
mod chain_reader;
mod contents;
mod draft;
mod file;
mod literals;
mod node;
mod outcomes;
mod sensing_draft;
pub mod ticket;
