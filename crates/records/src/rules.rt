// The rules that a single record is judged by.
ghost use Rattle.std.specs.Prelude.{◌≡◌, false};
ghost use Rattle.records.specs.Layout.{kind, value};
ghost use Rattle.records.specs.Judging.{value_good, bare, fault_of, verdict};

use crate::kinds::Record;
use crate::part::Part;
use crate::refusal::{Fault, Refusal};
use worlds::literals::speaks_within;

impl Part<'_> {
    // Whether the record's value is one that its kind may have.
    fn value_good(&self, n: u16) -> bool
        ensures { result ≡ value_good n (kind self.now.bytes.now) (value self.now.bytes.now) }
    {
        let value = self.value();
        match Record::try_from(*self) {
            Ok(Record::Term(_) | Record::Aim(_) | Record::Outcome(_)) => value == 0,
            Ok(Record::Action(_) | Record::Sensing(_)) => (0..256).contains(&value),
            _ => speaks_within(n, value),
        }
    }

    // Whether the record is a literal, sensed or not, which has no chain under it.
    fn is_bare(&self) -> bool
        ensures { result ≡ bare (kind self.now.bytes.now) }
    {
        matches!(
            Record::try_from(*self),
            Ok(Record::Literal(_) | Record::SensedLiteral(_))
        )
    }

    // Judges the record by itself, in a chain with room for so many of its kind, of which so many stand before it.
    pub fn judged(&self, n: u16, room: usize, standing: usize) -> Result<(), Refusal>
        ensures { result ≡ verdict self.now.number (fault_of n (kind self.now.bytes.now) room standing false self.now.bytes.now) }
    {
        if room == 0 || (self.is_bare() && self.below() != 0) {
            return Err(self.refused(Fault::Kind));
        }
        if standing >= room {
            return Err(self.refused(Fault::Limit));
        }
        if !self.value_good(n) {
            return Err(self.refused(Fault::Value));
        }
        Ok(())
    }
}
