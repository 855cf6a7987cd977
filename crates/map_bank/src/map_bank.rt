// A bank that keeps each set as a map of bits: sixteen words, a bit for each of 1024 worlds.
ghost use Rattle.std.specs.Prelude.{◌≡◌, ◌*◌, ◌≤◌, true, map, vec_len};
ghost use Rattle.ticket.specs.Tickets.{ticket_of};
ghost use Rattle.bank.specs.Meaning.{all_different};
ghost use Rattle.map_bank.specs.Held.{rows_of, AllTidy};
ghost use Rattle.map_bank.specs.Numbers.{set_of};

use ticket::ticket::Ticket;

mod calls;
mod keeps;

#[derive(Drop)]
pub struct MapBank {
    ticket: Ticket,
    // The held sets are the first rows, and what lies behind them is of no account. The count stands beside the words, which
    // whoever makes the bank hands over: no call of a bank takes memory.
    words: Vec<u64>,
    count: usize,
    ghost room: { 16 * count ≤ vec_len words },
    ghost few: { count ≤ 256 },
    ghost small: { (ticket_of ticket).conditions ≤ 10 },
    ghost tidy: { AllTidy (ticket_of ticket).conditions (rows_of count words.items) },
    ghost different: { all_different (ticket_of ticket).conditions (map (set_of (ticket_of ticket).conditions) (rows_of count words.items)) ≡ true },
}
