// What the top chain of a ticket holds: at most 256 terms and 32 steps. Both lists have all the room that they may need
// from the beginning, so that reading never runs out of memory.
ghost use Rattle.std.specs.Prelude.{◌≤◌, vec_capacity, vec_len};

use worlds::step::{Step, Term};

mod adds;
mod gathers;

#[derive(Drop)]
pub(crate) struct Contents {
    pub(crate) terms: Vec<Term>,
    pub(crate) aim: Option<Term>,
    pub(crate) steps: Vec<Step>,
    ghost terms_room: { (vec_len terms ≤ 256) × (256 ≤ vec_capacity terms) },
    ghost steps_room: { (vec_len steps ≤ 32) × (32 ≤ vec_capacity steps) },
}
