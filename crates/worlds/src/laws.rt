// Theorems on the subject. Each stands as the contract of a function that computes nothing.
ghost use Rattle.worlds.specs.Laws.{CompatibleLists, EffectsTakeHold};

// Of two lists of literals of conditions 1 to n, each free of opposites, some world meets both exactly where no literal
// of one has its opposite in the other.
pub fn compatible_lists()
    ensures { CompatibleLists }
{}

// After a lawful outcome, the results of all effects that were met beforehand hold, and other conditions keep their
// values.
pub fn effects_take_hold()
    ensures { EffectsTakeHold }
{}
