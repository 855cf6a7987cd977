// Rows: sets of worlds of up to ten conditions, and what a bank asks of them.
ghost use Rattle.std.specs.Prelude.{◌≡◌, ℕ, ◌+◌, ◌*◌, ◌^◌, ◌<◌, ◌≤◌, true, false, not, ◌&&◌, ◌||◌, ◌==◌, map, slice_index};
ghost use Rattle.worlds.specs.Worlds.{World, holds, meets, speaks_within};
ghost use Rattle.worlds.specs.Tickets.{every, lawful_list, meets_some};
ghost use Rattle.worlds.specs.Sets.{all_meet, none_in, same_value, side};
ghost use Rattle.worlds.specs.Meaning.{listed};
ghost use Rattle.map_bank.specs.Bits.{bit};
ghost use Rattle.map_bank.specs.Numbers.{number, in_words, set_of};
ghost use Rattle.map_bank.specs.Rows.{Tidy};

use crate::words::{has, meet_mask, put};
use std::array;
use worlds::step::{Literal, Term};

// A set of worlds of at most ten conditions: bit k % 64 of word k / 64 tells whether it has world number k.
#[derive(Drop)]
pub(crate) struct Row {
    pub(crate) words: [u64; 16],
    pub(crate) conditions: u16,
    ghost few: { conditions ≤ 10 },
    ghost tidy: { Tidy conditions words },
}

// Word k of the worlds that meet at least one term.
fn union_mask(terms: &[Term], k: usize) -> u64
    requires { (every (every (speaks_within 10)) (map listed terms.now) ≡ true) × (k < 16) }
    ensures { (n : ℕ) (w : World n) (b : ℕ) → b < 64 → number n w ≡ 64 * k + b → bit result b ≡ meets_some n w (map listed terms.now) }
{
    // Beside `meet_mask`, and a `for` like it: one function for both would take a closure, which would need a `requires` of its own.
    let mut mask = 0;
    for term in terms {
        mask |= meet_mask(term.as_slice(), k);
    }
    mask
}

// The worlds that meet at least one term, with bits beyond the worlds of n conditions.
fn union_words(terms: &[Term]) -> [u64; 16]
    requires { every (every (speaks_within 10)) (map listed terms.now) ≡ true }
    ensures { (n : ℕ) → n ≤ 10 → (w : World n) → set_of n result w ≡ meets_some n w (map listed terms.now) }
{
    array::from_fn(|k| union_mask(terms, k))
}

// The literal that a world does not meet where another is so in it, or is not.
fn denied(literal: Literal, so: bool) -> Literal
    requires { speaks_within 10 literal ≡ true }
    ensures within { speaks_within 10 result ≡ true }
    ensures turned { (n : ℕ) (w : World n) → not (holds n w result) ≡ same_value so (holds n w literal) }
{
    if so { -literal } else { literal }
}

impl Row {
    ghost use Rattle.map_bank.specs.RowSets.{worlds_of, Keeps};

    // The set without worlds.
    pub(crate) fn empty(conditions: u16) -> Row
        requires { conditions ≤ 10 }
        ensures conditions { result.conditions ≡ conditions }
        ensures worlds { (k : ℕ) → in_words result.words k ≡ false }
    {
        Row {
            words: [0; 16],
            conditions,
        }
    }

    // Puts a world in.
    pub(crate) fn put(&mut self, world: usize)
        requires { world < 2 ^ self.old.conditions }
        ensures conditions { self.new.conditions ≡ self.old.conditions }
        ensures worlds { (k : ℕ) → in_words self.new.words k ≡ (in_words self.old.words k || k == world) }
    {
        put(&mut self.words, world);
    }

    // The worlds of n conditions that meet at least one term.
    pub(crate) fn starting(terms: &[Term], n: u16) -> Row
        requires { (n ≤ 10) × (every (lawful_list n 32) (map listed terms.now) ≡ true) }
        ensures { Keeps result n (λ w. meets_some n w (map listed terms.now)) }
    {
        let union = union_words(terms);
        let mut start = Row::empty(n);
        // Over the numbers of worlds, which no list holds.
        for world in 0..1usize << n {
            if has(&union, world) {
                start.put(world);
            }
        }
        start
    }

    // Word k of the worlds of the set that do not meet a list.
    fn outside_word(&self, list: &[Literal], k: usize) -> u64
        requires { (every (speaks_within 10) list.now ≡ true) × (k < 16) }
        ensures { (n : ℕ) (w : World n) (b : ℕ) → b < 64 → number n w ≡ 64 * k + b → bit result b ≡ (bit (slice_index self.now.words k) b && not (meets n w list.now)) }
    {
        self.words[k] & !meet_mask(list, k)
    }

    // The worlds of the set that do not meet a list.
    fn outside(&self, list: &[Literal]) -> Row
        requires { every (speaks_within 10) list.now ≡ true }
        ensures { Keeps result self.now.conditions (λ w. worlds_of self.now w && not (meets self.now.conditions w list.now)) }
    {
        Row {
            words: array::from_fn(|k| self.outside_word(list, k)),
            conditions: self.conditions,
        }
    }

    // The worlds of the set in which a literal is so, or those in which it is not.
    pub(crate) fn side(&self, literal: Literal, so: bool) -> Row
        requires { speaks_within 10 literal ≡ true }
        ensures { Keeps result self.now.conditions (side self.now.conditions literal so (worlds_of self.now)) }
    {
        self.outside(&[denied(literal, so)])
    }

    // Whether every world of the set meets a list. It ends at the first word with a world that does not.
    pub(crate) fn meets(&self, list: &[Literal]) -> bool
        requires { every (speaks_within 10) list.now ≡ true }
        ensures { result ≡ all_meet self.now.conditions (worlds_of self.now) list.now }
    {
        (0..16).all(|k| self.outside_word(list, k) == 0)
    }

    // Whether the set has no world.
    pub(crate) fn is_empty(&self) -> bool
        ensures { result ≡ none_in self.now.conditions (worlds_of self.now) }
    {
        self.words.iter().all(|word| *word == 0)
    }
}
