// A bank keeps a numbered list of different, non-empty sets of worlds of one ticket, and answers what steps do to them.
// What it means is `Meaning`; its calls do just what specs/Calls.antt says to that meaning, and what they refuse alters
// nothing.
ghost use Rattle.std.specs.Prelude.{◌≡◌, length};
ghost use Rattle.ticket.specs.Tickets.{ticket_of};
ghost use Rattle.bank.specs.Meaning.{Meaning, Nature, Sound};
ghost use Rattle.bank.specs.Calls.{unless, left_by, found_fault, founded, holds_answer, next_answer, next_leaves, split_answer, split_leaves, shorten_fault, shortened};

use crate::fault::BankFault;
use ticket::ticket::Ticket;
use worlds::step::Literal;

pub trait Bank {
    ghost means: { Self → Meaning };

    ghost nature: { Nature };

    // Empties the list and puts the starting worlds of a ticket in as set 0.
    fn found(&mut self, ticket: &Ticket) -> Result<(), BankFault>
        ensures answer { result ≡ unless (found_fault nature (ticket_of ticket.now) (means self.old)) tt }
        ensures after { means self.new ≡ left_by (found_fault nature (ticket_of ticket.now) (means self.old)) (means self.old) (founded nature (ticket_of ticket.now) (means self.old)) };

    // Whether every world of a set meets a list of literals.
    fn holds(&self, set: usize, list: &[Literal]) -> Result<bool, BankFault>
        ensures { result ≡ holds_answer set list.now (means self.now) };

    // The number of the set that an action makes of a set.
    fn next(&mut self, set: usize, step: usize) -> Result<usize, BankFault>
        ensures answer { result ≡ next_answer nature set step (means self.old) }
        ensures after { means self.new ≡ next_leaves nature set step (means self.old) };

    // The number of the set of worlds of a set on one side of a sensing step: where its literal is so, or is not.
    fn split(&mut self, set: usize, step: usize, so: bool) -> Result<usize, BankFault>
        ensures answer { result ≡ split_answer nature set step so (means self.old) }
        ensures after { means self.new ≡ split_leaves nature set step so (means self.old) };

    // How many sets are held.
    fn count(&self) -> usize
        ensures { result ≡ length (means self.now).held };

    // Keeps the first sets only.
    fn shorten(&mut self, count: usize) -> Result<(), BankFault>
        ensures answer { result ≡ unless (shorten_fault count (means self.old)) tt }
        ensures after { means self.new ≡ left_by (shorten_fault count (means self.old)) (means self.old) (shortened count (means self.old)) };

    // The ticket that the bank was founded on.
    fn ticket(&self) -> &Ticket
        ensures { ticket_of result.now ≡ (means self.now).ticket };

    ghost sound: { (b : Self) → Sound (means b) };
}
