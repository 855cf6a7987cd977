// Tallies: what a procedure costs, step by step.
#![tactic(auto)]

ghost use Rattle.std.specs.Prelude.{◌≡◌, Bool};
ghost use Rattle.worlds.specs.Steps.{Step};
ghost use Rattle.worlds.specs.Meaning.{step_of};
ghost use Rattle.tally.specs.Laws.{Laws};

use worlds::step;

pub mod hazard;
pub mod steps;

// A tally has totals, an order on them, a least total called nothing, and a way to add a step to the total of what
// follows it. Its laws are all that is ever used of it.
pub trait Tally {
    type Total: Copy;

    // Whether one total is at most another.
    ghost le: { Self.Total → Self.Total → Bool };

    // The least total: that of the empty procedure.
    ghost nothing: { Self.Total };

    // A step added to the total of the rest.
    ghost add: { Step → Self.Total → Self.Total };

    fn nothing() -> Self::Total
        ensures { result ≡ nothing };

    fn at_most(a: Self::Total, b: Self::Total) -> bool
        ensures { result ≡ le a b };

    fn plus(step: &step::Step, rest: Self::Total) -> Self::Total
        ensures { result ≡ add (step_of step.now) rest };

    ghost lawful: { Laws le nothing add };
}
