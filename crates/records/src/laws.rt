// Theorems on the ticket file. Each stands as the contract of a function that computes nothing.
ghost use Rattle.records.specs.OneAnswer.{OneAnswer};

// Every string of bytes has exactly one answer: either it holds a ticket, and no other ticket, or it is refused, with one
// fault at one record, and no other.
pub fn one_answer()
    ensures { OneAnswer }
{}
