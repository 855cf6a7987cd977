// Sets of worlds as sixteen words of 64 bits, a bit for each world number below 1024. The number k of a word is a plain number
// below 16: a type of its own would be made at each turn over the words, only to be read out again at each index. That a literal speaks of
// one of ten conditions is asked here and by what calls this: lists are lent, and a type that lends them would be made
// at each call only to be read out again.
ghost use Rattle.std.specs.Prelude.{◌≡◌, ℕ, ◌+◌, ◌*◌, ◌<◌, true, ◌||◌, ◌==◌};
ghost use Rattle.worlds.specs.Worlds.{World, meets, speaks_within};
ghost use Rattle.worlds.specs.Tickets.{every};
ghost use Rattle.map_bank.specs.Bits.{bit};
ghost use Rattle.map_bank.specs.Numbers.{number, number_holds, in_words};

use crate::table::truth_word;
use worlds::step::Literal;

// Word k of the worlds in which a literal is so.
fn literal_mask(literal: Literal, k: usize) -> u64
    requires { (speaks_within 10 literal ≡ true) × (k < 16) }
    ensures { (b : ℕ) → b < 64 → bit result b ≡ number_holds (64 * k + b) literal }
{
    let truth = truth_word(usize::from(literal.unsigned_abs()), k);
    if literal > 0 { truth } else { !truth }
}

// Word k of the worlds that meet a list of literals.
pub(crate) fn meet_mask(list: &[Literal], k: usize) -> u64
    requires { (every (speaks_within 10) list.now ≡ true) × (k < 16) }
    ensures { (n : ℕ) (w : World n) (b : ℕ) → b < 64 → number n w ≡ 64 * k + b → bit result b ≡ meets n w list.now }
{
    // A `for`: the closure of a `fold` would need a `requires` of its own.
    let mut mask = u64::MAX;
    for literal in list {
        mask &= literal_mask(*literal, k);
    }
    mask
}

// Whether a set has a world.
pub(crate) fn has(words: &[u64; 16], world: usize) -> bool
    requires { world < 1024 }
    ensures { result ≡ in_words words.now world }
{
    words[world / 64] >> (world % 64) & 1 == 1
}

// Puts a world into a set.
pub(crate) fn put(words: &mut [u64; 16], world: usize)
    requires { world < 1024 }
    ensures { (k : ℕ) → in_words words.new k ≡ (in_words words.old k || k == world) }
{
    words[world / 64] |= 1 << (world % 64);
}
