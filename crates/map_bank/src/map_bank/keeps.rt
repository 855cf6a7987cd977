ghost use Rattle.std.specs.Prelude.{◌≡◌, ◌<◌, ◌≤◌, [], IfOk, IfErr, vec_len};
ghost use Rattle.bank.specs.Calls.{founded};
ghost use Rattle.ticket.specs.Tickets.{ticket_of, blank};
ghost use Rattle.map_bank.specs.Rows.{Tidy};
ghost use Rattle.map_bank.specs.MapBanks.{meaning_with, means_of, map_nature, capacity_of, row_kept, place_kept, row_answer, row_leaves, Fitting, New, pushed_to};

use crate::map_bank::MapBank;
use crate::places::{first_rows, write_row};
use crate::row::Row;
use bank::fault::BankFault;
use std::alloc::{AllocError, Global};
use ticket::ticket::Ticket;

impl MapBank {
    // A bank without sets, which keeps what it will hold in the words that it is given, sixteen for each set.
    pub fn new(alloc: Global, words: Vec<u64>) -> Result<MapBank, AllocError>
        ensures { IfOk result (λ b. means_of b ≡ meaning_with blank [] (capacity_of (vec_len words))) }
    {
        let ticket = Ticket::new(alloc)?;
        Ok(MapBank {
            ticket,
            words,
            count: 0,
        })
    }

    // The words that a set is kept as; none where no set of this number is held.
    pub fn row(&self, set: usize) -> Option<[u64; 16]>
        ensures { result ≡ row_kept set (means_of self.now).kept }
    {
        let rows = first_rows(self.words.as_slice(), self.count);
        rows.get(set).copied()
    }

    // A held set.
    pub(crate) fn held(&self, set: usize) -> Result<Row, BankFault>
        ensures there { IfOk result (λ row. (row.conditions ≡ (ticket_of self.now.ticket).conditions) × (Some row.words ≡ row_kept set (means_of self.now).kept)) }
        ensures absent { IfErr result (λ fault. (fault ≡ BankFault.NoSet) × (None ≡ row_kept set (means_of self.now).kept)) }
    {
        let words = self.row(set).ok_or(BankFault::NoSet)?;
        Ok(Row {
            words,
            conditions: self.ticket.conditions(),
        })
    }

    // How many sets there is room for.
    fn capacity(&self) -> usize
        ensures { result ≡ capacity_of (vec_len self.now.words) }
    {
        (self.words.len() / 16).min(256)
    }

    // The number of the set of a row's words, where it is held: rows are the same exactly where their sets are.
    fn find(&self, wanted: &[u64; 16]) -> Option<usize>
        requires { Tidy (ticket_of self.now.ticket).conditions wanted.now }
        ensures { result ≡ place_kept (means_of self.now) wanted.now }
    {
        let words = self.words.as_slice();
        first_rows(words, self.count)
            .iter()
            .position(|held| held == wanted)
    }

    // Puts a row behind the held ones.
    fn push(&mut self, row: &Row)
        requires { (self.old.count < capacity_of (vec_len self.old.words)) × New self.old row.now }
        ensures { means_of self.new ≡ pushed_to (means_of self.old) row.now.words }
    {
        write_row(self.words.as_mut_slice(), self.count, &row.words);
        self.count += 1;
    }

    // Puts a row behind the held ones, if there is room, and gives its number.
    fn append(&mut self, row: &Row) -> Result<usize, BankFault>
        requires { New self.old row.now }
        ensures answer { result ≡ row_answer (means_of self.old) row.now.words }
        ensures after { means_of self.new ≡ row_leaves (means_of self.old) row.now.words }
    {
        let place = self.count;
        if place >= self.capacity() {
            return Err(BankFault::Full);
        }
        self.push(row);
        Ok(place)
    }

    // The number of the set of a row: where it is held already, or behind the held ones if there is room.
    pub(crate) fn put(&mut self, row: &Row) -> Result<usize, BankFault>
        requires { Fitting self.old row.now }
        ensures answer { result ≡ row_answer (means_of self.old) row.now.words }
        ensures after { means_of self.new ≡ row_leaves (means_of self.old) row.now.words }
    {
        match self.find(&row.words) {
            Some(place) => Ok(place),
            None => self.append(row),
        }
    }

    // Empties the list, makes the ticket another's, and puts its starting worlds in as set 0.
    pub(crate) fn restart(&mut self, ticket: &Ticket)
        requires { ((ticket_of ticket.now).conditions ≤ 10) × (16 ≤ vec_len self.old.words) }
        ensures { means_of self.new ≡ founded map_nature (ticket_of ticket.now) (means_of self.old) }
    {
        let row = Row::starting(ticket.terms(), ticket.conditions());
        self.count = 0;
        self.ticket.copy_from(ticket);
        self.push(&row);
    }
}

#[cfg(test)]
mod tests {
    use super::*;
    use bank::bank::Bank;
    use std::test::Fail;

    #[test]
    fn sixteen_words_have_room_for_one_set(rt: HostRuntime) -> Result<(), Fail> {
        let words = [0; 16].to_vec(rt.alloc())?;
        let mut bank = MapBank::new(rt.alloc(), words)?;
        let ticket = Ticket::new(rt.alloc())?;
        assert!(rt; bank.found(&ticket).is_ok());
        assert_eq!(rt; bank.count(), 1);
        assert_eq!(rt;
            bank.row(0),
            Some([3, 0, 0, 0, 0, 0, 0, 0, 0, 0, 0, 0, 0, 0, 0, 0]),
            "condition 1 may be false or true"
        );
        Ok(())
    }

    #[test]
    fn fifteen_words_have_room_for_none(rt: HostRuntime) -> Result<(), Fail> {
        let words = [0; 15].to_vec(rt.alloc())?;
        let mut bank = MapBank::new(rt.alloc(), words)?;
        let ticket = Ticket::new(rt.alloc())?;
        assert_eq!(rt; bank.found(&ticket), Err(BankFault::Full));
        assert_eq!(rt; bank.count(), 0);
        Ok(())
    }

    // A file of one term and an aim, both without literals.
    fn file_of(conditions: u8) -> [u8; 24] {
        let mut file = *b"TKT1__\x01\0\x01\0\0\0\0\0\x02\0\x02\0\0\0\0\0\0\0";
        file[4] = conditions;
        file[5] = 0;
        file
    }

    #[test]
    fn ten_conditions_are_taken_and_eleven_are_not(rt: HostRuntime) -> Result<(), Fail> {
        let words = [0; 16].to_vec(rt.alloc())?;
        let mut bank = MapBank::new(rt.alloc(), words)?;
        let mut ticket = Ticket::new(rt.alloc())?;
        ticket.read(&file_of(10))?;
        assert!(rt; bank.found(&ticket).is_ok());
        assert_eq!(rt; bank.row(0), Some([u64::MAX; 16]), "all 1024 worlds");
        ticket.read(&file_of(11))?;
        assert_eq!(rt; bank.found(&ticket), Err(BankFault::Conditions));
        assert_eq!(rt; bank.row(0), Some([u64::MAX; 16]), "the bank is as it was");
        Ok(())
    }
}
