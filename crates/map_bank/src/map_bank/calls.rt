ghost use Rattle.std.specs.Prelude.{ℕ, ◌≤◌, vec_len};
ghost use Rattle.std.proofs.Common.{sym, subst, ◌∙◌, arith};
ghost use Rattle.std.proofs.lemmas.List.{length-map};
ghost use Rattle.ticket.specs.Tickets.{ticket_of};
ghost use Rattle.map_bank.specs.Held.{length_rows};
ghost use Rattle.map_bank.specs.MapBanks.{means_of, map_nature, rows_in, capacity_of};
ghost use Rattle.map_bank.specs.Numbers.{set_of};

use crate::map_bank::MapBank;
use crate::steps::{speak_within, step_at};
use bank::bank::Bank;
use bank::fault::BankFault;
use ticket::ticket::Ticket;
use worlds::step::{Literal, Step};

impl Bank for MapBank {
    ghost means = { means_of };

    ghost nature = { map_nature };

    ghost sound = { λ b.
        let long = length-map (rows_in b) (set_of (ticket_of b.ticket).conditions) in
        let fits : b.count ≤ capacity_of (vec_len b.words) = omega (arith, b.room, b.few) in
        record {
          lawful_ticket = b.ticket.lawful;
          different = b.different;
          each_kept = sym long;
          within = subst (λ (k : ℕ). k ≤ capacity_of (vec_len b.words)) (sym (long ∙ length_rows b.count b.words.items)) fits;
          at_most = omega arith;
        } };

    fn found(&mut self, ticket: &Ticket) -> Result<(), BankFault> {
        if ticket.conditions() > 10 {
            return Err(BankFault::Conditions);
        }
        if self.words.len() < 16 {
            return Err(BankFault::Full);
        }
        self.restart(ticket);
        Ok(())
    }

    fn holds(&self, set: usize, list: &[Literal]) -> Result<bool, BankFault> {
        let row = self.held(set)?;
        if !speak_within(list, self.ticket.conditions()) {
            return Err(BankFault::Conditions);
        }
        Ok(row.meets(list))
    }

    fn next(&mut self, set: usize, step: usize) -> Result<usize, BankFault> {
        let row = self.held(set)?;
        let Some(Step::Action(action)) = step_at(&self.ticket, step) else {
            return Err(BankFault::WrongStep);
        };
        self.put(&row.successor(action.outcomes.as_slice()))
    }

    fn split(&mut self, set: usize, step: usize, so: bool) -> Result<usize, BankFault> {
        let row = self.held(set)?;
        let Some(Step::Sensing(sensing)) = step_at(&self.ticket, step) else {
            return Err(BankFault::WrongStep);
        };
        let part = row.side(sensing.sensed, so);
        if part.is_empty() {
            return Err(BankFault::EmptySide);
        }
        self.put(&part)
    }

    fn count(&self) -> usize {
        self.count
    }

    fn shorten(&mut self, count: usize) -> Result<(), BankFault> {
        if self.count < count {
            return Err(BankFault::NoSet);
        }
        self.count = count;
        Ok(())
    }

    fn ticket(&self) -> &Ticket {
        &self.ticket
    }
}
