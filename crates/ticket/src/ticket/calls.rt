ghost use Rattle.std.specs.Prelude.{◌≡◌, IfOk};
ghost use Rattle.ticket.specs.Tickets.{ticket_of, blank, ReadAs};

use crate::chain_reader::ChainReader;
use crate::contents::Contents;
use crate::ticket::Ticket;
use records::refusal::Refusal;
use std::alloc::{AllocError, Global};

impl Ticket {
    // A ticket of one condition that starts anywhere, aims at nothing and has no steps, with room for every ticket.
    pub fn new(alloc: Global) -> Result<Ticket, AllocError>
        ensures { IfOk result (λ t. ticket_of t ≡ blank) }
    {
        let kept = Contents::new(alloc)?;
        let spare = Contents::new(alloc)?;
        Ok(Ticket {
            conditions: 1,
            kept,
            spare,
        })
    }

    // Fills the ticket from a file of any bytes, or answers the file's fault and leaves the ticket as it was.
    pub fn read(&mut self, file: &[u8]) -> Result<(), Refusal>
        ensures { ReadAs file.now (ticket_of self.old) (ticket_of self.new) result }
    {
        let top = ChainReader::top(file)?;
        let conditions = top.file.conditions;
        self.spare.fill(top)?;
        std::mem::swap(&mut self.kept, &mut self.spare);
        self.conditions = conditions;
        Ok(())
    }

    // Makes this ticket the same as another. It needs no memory beyond what it has.
    pub fn copy_from(&mut self, other: &Ticket)
        ensures { ticket_of self.new ≡ ticket_of other.now }
    {
        self.kept.copy_from(&other.kept);
        self.conditions = other.conditions;
    }
}
