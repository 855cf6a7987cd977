// A ticket, as an owned value. It keeps its laws from its making on, before anything is read into it.
ghost use Rattle.std.specs.Prelude.{◌≡◌, true};
ghost use Rattle.worlds.specs.Tickets.{lawful};
ghost use Rattle.ticket.specs.Meaning.{ticket_with};

use crate::contents::Contents;

mod calls;
mod questions;

#[derive(Drop)]
pub struct Ticket {
    conditions: u16,
    kept: Contents,
    // what a file is read into, so that a refused file leaves the ticket as it was
    spare: Contents,
    ghost lawful: { lawful (ticket_with conditions kept) ≡ true },
}
