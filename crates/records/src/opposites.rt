// Opposite literals, and effects that clash.
ghost use Rattle.std.specs.Prelude.{◌≡◌, map};
ghost use Rattle.worlds.specs.Meaning.{effect_of};
ghost use Rattle.worlds.specs.Worlds.{same_literal, has_literal, opposite, compatible};
ghost use Rattle.records.specs.Conflicts.{conflict, conflicts};

use worlds::step::{Effect, Literal};

// Whether a is the opposite of b.
fn is_contrary(a: Literal, b: Literal) -> bool
    ensures { result ≡ same_literal (opposite b) a }
{
    i32::from(a) == -i32::from(b)
}

// Whether the opposite of a literal is in a list.
pub fn is_opposed(list: &[Literal], literal: Literal) -> bool
    ensures { result ≡ has_literal (opposite literal) list.now }
{
    list.iter().any(|l| is_contrary(*l, literal))
}

// Whether no literal of one list has its opposite in the other.
fn are_compatible(list: &[Literal], other: &[Literal]) -> bool
    ensures { result ≡ compatible list.now other.now }
{
    list.iter().all(|l| !is_opposed(other, *l))
}

fn in_conflict(earlier: &Effect, effect: &Effect) -> bool
    ensures { result ≡ conflict (effect_of earlier.now) (effect_of effect.now) }
{
    is_contrary(earlier.result, effect.result)
        && are_compatible(earlier.conditions.as_slice(), effect.conditions.as_slice())
}

// Whether an effect clashes with one of the earlier effects of its outcome.
pub fn is_clashing(earlier: &[Effect], effect: &Effect) -> bool
    ensures { result ≡ conflicts (map effect_of earlier.now) (effect_of effect.now) }
{
    earlier.iter().any(|e| in_conflict(e, effect))
}
