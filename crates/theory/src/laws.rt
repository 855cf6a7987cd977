// Theorems for every lawful tally. Each stands as the contract of a function that computes nothing.
ghost use Rattle.theory.specs.Theorems.{AgreedIsBest, AgreedOnNone, BoundsAreSingle, CeilingIsReached, FloorIsBelow, FloorIsNotAboveSure, LeadsAreHeld, NoLeadExactlyWhenAgreed, SureIsCovered, WorkingNarrows};

use tally::Tally;

// What counts for a ceiling is a procedure that surely reaches the aim, at exactly its total.
pub fn ceiling_is_reached<T: Tally>()
    ensures { CeilingIsReached T.Tally.le T.Tally.nothing T.Tally.add }
{}

// A set has no two floors and no two ceilings.
pub fn bounds_are_single<T: Tally>()
    ensures { BoundsAreSingle T.Tally.le T.Tally.nothing T.Tally.add }
{}

// No floor is above its ceiling.
pub fn floor_is_below<T: Tally>()
    ensures { FloorIsBelow T.Tally.le T.Tally.nothing T.Tally.add }
{}

// Working more sets never lowers a floor, nor raises a ceiling.
pub fn working_narrows<T: Tally>()
    ensures { WorkingNarrows T.Tally.le T.Tally.nothing T.Tally.add }
{}

// Whatever surely reaches the aim costs no less than some procedure that counts for the floor.
pub fn sure_is_covered<T: Tally>()
    ensures { SureIsCovered T.Tally.le T.Tally.nothing T.Tally.add }
{}

// No procedure that surely reaches the aim is below the floor; where the floor is none, there is no such procedure.
pub fn floor_is_not_above_sure<T: Tally>()
    ensures { FloorIsNotAboveSure T.Tally.le T.Tally.nothing T.Tally.add }
{}

// A set has no lead exactly when its floor and its ceiling agree.
pub fn no_lead_exactly_when_agreed<T: Tally>()
    ensures { NoLeadExactlyWhenAgreed T.Tally.le T.Tally.nothing T.Tally.add }
{}

// Every lead from a set of a closed collection is in the collection.
pub fn leads_are_held<T: Tally>()
    ensures { LeadsAreHeld T.Tally.le T.Tally.nothing T.Tally.add }
{}

// Where floor and ceiling agree, they are the least total of all procedures that surely reach the aim.
pub fn agreed_is_best<T: Tally>()
    ensures { AgreedIsBest T.Tally.le T.Tally.nothing T.Tally.add }
{}

// Where they agree on none, no procedure surely reaches the aim.
pub fn agreed_on_none<T: Tally>()
    ensures { AgreedOnNone T.Tally.le T.Tally.nothing T.Tally.add }
{}
