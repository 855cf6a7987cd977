// What a bank asks of a ticket's steps and of lists of literals.
ghost use Rattle.std.specs.Prelude.{◌≡◌, map, option_map};
ghost use Rattle.worlds.specs.Meaning.{listed, outcome_of, step_of};
ghost use Rattle.worlds.specs.Worlds.{speaks_within};
ghost use Rattle.worlds.specs.Tickets.{every, step_at};
ghost use Rattle.ticket.specs.Tickets.{ticket_of};
ghost use Rattle.bank.specs.Calls.{outcomes_of, sensed_of};

use ticket::ticket::Ticket;
use worlds::few::Few;
use worlds::literals::speaks_within;
use worlds::step::{Literal, Outcome, Step};

// Whether every literal of a list speaks of one of the conditions 1 to n.
pub(crate) fn speak_within(list: &[Literal], n: u16) -> bool
    ensures { result ≡ every (speaks_within n) list.now }
{
    list.iter().all(|literal| speaks_within(n, *literal))
}

// The step of a number.
pub(crate) fn step_at(ticket: &Ticket, step: usize) -> Option<Step>
    ensures { option_map step_of result ≡ step_at (ticket_of ticket.now).steps step }
{
    ticket.steps().get(step).copied()
}
