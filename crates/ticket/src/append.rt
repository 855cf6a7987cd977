// Adding to a list of a draft.
ghost use Rattle.std.specs.Prelude.{◌≡◌, [], ◌∷◌, ◌++◌, length, if◌then◌else◌, nat_lt};
ghost use Rattle.worlds.specs.Meaning.{listed};

use worlds::few::Few;

// Adds to a list in which judging has left room, so that nothing is ever handed back.
pub(crate) fn append<T: Copy, const N: usize>(list: &mut Few<T, N>, x: T)
    ensures { listed list.new ≡ (if nat_lt (length (listed list.old)) N then listed list.old ++ x ∷ [] else listed list.old) }
{
    let _ = list.push(x);
}
