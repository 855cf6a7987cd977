ghost use Rattle.std.specs.Prelude.{◌≡◌, map};
ghost use Rattle.worlds.specs.Meaning.{listed, step_of};
ghost use Rattle.ticket.specs.Tickets.{ticket_of};

use crate::ticket::Ticket;
use worlds::few::Few;
use worlds::step::{Step, Term};

impl Ticket {
    pub fn conditions(&self) -> u16
        ensures { result ≡ (ticket_of self.now).conditions }
    {
        self.conditions
    }

    pub fn terms(&self) -> &[Term]
        ensures { map listed result.now ≡ (ticket_of self.now).terms }
    {
        self.kept.terms.as_slice()
    }

    pub fn aim(&self) -> Term
        ensures { listed result ≡ (ticket_of self.now).aim }
    {
        self.kept.aim.unwrap_or(Few::none(0))
    }

    pub fn steps(&self) -> &[Step]
        ensures { map step_of result.now ≡ (ticket_of self.now).steps }
    {
        self.kept.steps.as_slice()
    }
}
