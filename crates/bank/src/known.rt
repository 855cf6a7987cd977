// What is known of a literal in a set of worlds, over any bank.
ghost use Rattle.std.specs.Prelude.{◌≡◌, FitsSigned};
ghost use Rattle.std.specs.Int.{w16};
ghost use Rattle.worlds.specs.Worlds.{opposite};
ghost use Rattle.bank.specs.Known.{knows};

use crate::bank::Bank;
use crate::fault::BankFault;
use worlds::step::Literal;

// An enum, since three names tell more than an `Option<bool>`.
#[derive(Clone, Copy, PartialEq, Eq, Debug)]
pub enum Known {
    // the literal is so in every world of the set
    True,
    // it is so in no world
    False,
    // it is so in some, and not in others
    Unknown,
}

// The opposite of a literal that speaks of one of a ticket's conditions.
fn contrary(literal: Literal) -> Literal
    requires { FitsSigned w16 (opposite literal) }
    ensures { result ≡ opposite literal }
{
    -literal
}

// What is known of a literal in a set: that it is so in every world, in none, or neither. It refuses what Holds refuses.
pub fn known_of<B: Bank>(bank: &B, set: usize, literal: Literal) -> Result<Known, BankFault>
    ensures { result ≡ knows set literal (B.means bank.now) }
{
    if bank.holds(set, &[literal])? {
        return Ok(Known::True);
    }
    if bank.holds(set, &[contrary(literal)])? {
        return Ok(Known::False);
    }
    Ok(Known::Unknown)
}
