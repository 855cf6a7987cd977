// Why a file is refused, and at which record. `number_of` in specs/Refusals.antt gives each fault its number.
ghost use Rattle.std.specs.Prelude.{◌≡◌, Some};
ghost use Rattle.records.specs.Refusals.{number_of, refusal_words};

use std::fmt;

#[derive(Clone, Copy, PartialEq, Eq, Debug)]
pub enum Fault {
    // the file's length is under 8, over 32,768 or no multiple of 8
    Length,
    // the file does not begin with the mark
    Mark,
    // the number of conditions is not 1 to 32
    Conditions,
    // a link neither ends the chain nor leads on to a later record of the file
    Link,
    // the kind cannot stand in this chain, or a literal or sensed literal has a chain under it
    Kind,
    // the value is not one that the kind may have
    Value,
    // a literal whose opposite stands before it in its chain, or an effect that clashes with an earlier one
    Opposite,
    // one more than the chain may hold
    Limit,
    // the chain below ends without a term, an aim, an outcome or a sensed literal that it must hold
    Missing,
}

#[derive(Clone, Copy, PartialEq, Eq, Debug)]
pub struct Refusal {
    pub fault: Fault,
    // the number of the record at fault
    pub record: u16,
}

// The number by which users know a fault.
impl From<Fault> for u16 {
    ghost from_gives = { λ fault number. number ≡ number_of fault };

    fn from(fault: Fault) -> u16 {
        match fault {
            Fault::Length => 1,
            Fault::Mark => 2,
            Fault::Conditions => 3,
            Fault::Link => 4,
            Fault::Kind => 5,
            Fault::Value => 6,
            Fault::Opposite => 7,
            Fault::Limit => 8,
            Fault::Missing => 9,
        }
    }
}

// A refusal as users are told of it: `ticket 7 6`.
impl fmt::Display for Refusal {
    ghost output = { λ refusal. Some (refusal_words refusal) };

    fn fmt<W: fmt::Write>(&self, f: &mut fmt::Formatter<W>) -> fmt::Result {
        let fault = u16::from(self.fault);
        let record = self.record;
        write!(f, "ticket {fault} {record}")
    }
}
