// One record of a ticket file: its number and the eight bytes that it covers.
ghost use Rattle.std.specs.Prelude.{◌≡◌, ◌<◌, true, slice_index, unsigned_abs};
ghost use Rattle.records.specs.Judging.{class_good};
ghost use Rattle.records.specs.Layout.{word, kind, value, below, next};

use crate::refusal::{Fault, Refusal};

#[derive(Clone, Copy)]
pub struct Part<'a> {
    pub number: u16,
    pub bytes: &'a [u8; 8],
}

impl Part<'_> {
    // The word whose low byte stands at a place.
    fn word(&self, at: usize) -> u16
        requires { at < 7 }
        ensures { result ≡ word self.now.bytes.now at }
    {
        u16::from_le_bytes([self.bytes[at], self.bytes[at + 1]])
    }

    pub fn kind(&self) -> u16
        ensures { result ≡ kind self.now.bytes.now }
    {
        self.word(0)
    }

    pub fn value(&self) -> i16
        ensures { result ≡ value self.now.bytes.now }
    {
        self.word(2).cast_signed()
    }

    // The class of a step: its value, which has only a low byte where it is 0 to 255.
    pub fn class(&self) -> u8
        ensures byte { result ≡ slice_index self.now.bytes.now 2 }
        ensures value { class_good (value self.now.bytes.now) ≡ true → result ≡ unsigned_abs (value self.now.bytes.now) }
    {
        self.bytes[2]
    }

    pub fn below(&self) -> u16
        ensures { result ≡ below self.now.bytes.now }
    {
        self.word(4)
    }

    pub fn next(&self) -> u16
        ensures { result ≡ next self.now.bytes.now }
    {
        self.word(6)
    }

    pub fn refused(&self, fault: Fault) -> Refusal
        ensures { result ≡ record { fault = fault; «record» = self.now.number } }
    {
        Refusal {
            fault,
            record: self.number,
        }
    }
}

#[cfg(test)]
mod tests {
    use super::*;

    #[test]
    fn minus_five_stays_minus_five(rt: HostRuntime) {
        let part = Part {
            number: 1,
            bytes: &[5, 0, 0xfb, 0xff, 0, 0, 2, 1],
        };
        assert_eq!(rt; part.kind(), 5);
        assert_eq!(rt; part.value(), -5);
        assert_eq!(rt; part.next(), 258, "the low byte comes first");
    }
}
