// What is asked of a single literal.
ghost use Rattle.std.specs.Prelude.{◌≡◌};
ghost use Rattle.worlds.specs.Worlds.{speaks_within};

use crate::step::Literal;

// Whether a literal speaks of one of the conditions 1 to n.
pub fn speaks_within(n: u16, literal: Literal) -> bool
    ensures { result ≡ speaks_within n literal }
{
    literal != 0 && literal.unsigned_abs() <= n
}
