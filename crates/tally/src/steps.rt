ghost use Rattle.std.specs.Prelude.{nat_le};
ghost use Rattle.tally.specs.Totals.{one_more};
ghost use Rattle.std.proofs.Common.{rules};

use crate::Tally;
use worlds::step::Step;

// The tally that counts steps: each adds one, and the count stays at 65,535 once there.
pub struct Steps;

impl Tally for Steps {
    type Total = u16;

    ghost le = { nat_le };

    ghost nothing = { 0 };

    ghost add = { λ _ rest. one_more rest };

    ghost lawful = { Prim.search rules };

    fn nothing() -> u16 {
        u16::MIN
    }

    fn at_most(a: u16, b: u16) -> bool {
        a <= b
    }

    fn plus(step: &Step, rest: u16) -> u16 {
        rest.saturating_add(1)
    }
}
