// Literals and lists of literals in words.
ghost use Rattle.std.specs.Prelude.{Some};
ghost use Rattle.show.specs.Words.{literal_words, list_words};

use std::fmt;
use worlds::step::Literal;

// A literal as text: `condition 5`, or `not condition 5`.
#[derive(Clone, Copy)]
pub struct InWords(pub Literal);

impl fmt::Display for InWords {
    ghost output = { λ w. Some (literal_words w.0) };

    fn fmt<W: fmt::Write>(&self, f: &mut fmt::Formatter<W>) -> fmt::Result {
        let condition = self.0.unsigned_abs();
        if self.0 < 0 {
            write!(f, "not condition {condition}")
        } else {
            write!(f, "condition {condition}")
        }
    }
}

// A list as text: its literals between commas, or `anything` where there are none.
#[derive(Clone, Copy)]
pub struct ListInWords<'a>(pub &'a [Literal]);

impl fmt::Display for ListInWords<'_> {
    ghost output = { λ w. Some (list_words w.0.now) };

    fn fmt<W: fmt::Write>(&self, f: &mut fmt::Formatter<W>) -> fmt::Result {
        let [first, rest @ ..] = self.0 else {
            return write!(f, "anything");
        };
        let first = InWords(*first);
        write!(f, "{first}")?;
        for literal in rest {
            let further = InWords(*literal);
            write!(f, ", {further}")?;
        }
        Ok(())
    }
}
