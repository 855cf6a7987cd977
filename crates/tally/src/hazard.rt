ghost use Rattle.std.specs.Prelude.{max, nat_le};
ghost use Rattle.tally.specs.Totals.{class_of};
ghost use Rattle.std.proofs.Common.{rules};

use crate::Tally;
use worlds::step::Step;

// The tally of hazard: a procedure is as hazardous as the most hazardous class among its steps.
pub struct Hazard;

impl Tally for Hazard {
    type Total = u16;

    ghost le = { nat_le };

    ghost nothing = { 0 };

    ghost add = { λ s rest. max (class_of s) rest };

    ghost lawful = { Prim.search rules };

    // This and the next are as in `Steps`: one body for both would need a trait with a least value and an order in which equal
    // totals are one value, and the library has none.
    fn nothing() -> u16 {
        u16::MIN
    }

    fn at_most(a: u16, b: u16) -> bool {
        a <= b
    }

    fn plus(step: &Step, rest: u16) -> u16 {
        let class = match step {
            Step::Action(action) => action.class,
            Step::Sensing(sensing) => sensing.class,
        };
        u16::from(class).max(rest)
    }
}
