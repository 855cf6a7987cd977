// The kinds of records: a part of the file shown as what its kind says.
ghost use Rattle.std.specs.Prelude.{◌≡◌};
ghost use Rattle.records.specs.Kinds.{recognised, shown};
ghost use Rattle.records.specs.Layout.{kind};

use crate::part::Part;
use crate::refusal::{Fault, Refusal};

// Each case holds the part that it shows, so that a record can be handed on by itself.
#[derive(Clone, Copy)]
pub enum Record<'a> {
    Term(Part<'a>),
    Aim(Part<'a>),
    Action(Part<'a>),
    Sensing(Part<'a>),
    Literal(Part<'a>),
    Outcome(Part<'a>),
    Effect(Part<'a>),
    SensedLiteral(Part<'a>),
    // of a kind that no record has: `of`, which cannot fail, shows such a part so
    Unknown(Part<'a>),
}

// A part is shown as what its kind says; a kind that no record has is at fault.
impl<'a> TryFrom<Part<'a>> for Record<'a> {
    type Error = Refusal;

    ghost try_from_gives = { λ part answer. answer ≡ recognised (kind part.bytes.now) part };

    fn try_from(part: Part<'a>) -> Result<Record<'a>, Refusal> {
        match part.kind() {
            1 => Ok(Record::Term(part)),
            2 => Ok(Record::Aim(part)),
            3 => Ok(Record::Action(part)),
            4 => Ok(Record::Sensing(part)),
            5 => Ok(Record::Literal(part)),
            6 => Ok(Record::Outcome(part)),
            7 => Ok(Record::Effect(part)),
            8 => Ok(Record::SensedLiteral(part)),
            _ => Err(part.refused(Fault::Kind)),
        }
    }
}

impl<'a> Record<'a> {
    // Any part, shown as what its kind says.
    pub fn of(part: Part<'a>) -> Record<'a>
        ensures { result ≡ shown (kind part.entry.bytes.now) part.entry }
    {
        Record::try_from(part).unwrap_or(Record::Unknown(part))
    }
}
