// The worlds that an action's outcomes give from a set of worlds. That effects and outcomes are lawful is
// asked by each function over them: they are lent out of a step, and it is a fact of the step's ticket. A type that lends them would be
// made at each call only to be read out again.
ghost use Rattle.std.specs.Prelude.{◌≡◌, ℕ, ◌*◌, ◌/◌, ◌<◌, ◌≤◌, true, ◌||◌, map, length};
ghost use Rattle.worlds.specs.Meaning.{effect_of, outcome_of};
ghost use Rattle.worlds.specs.Sets.{successor};
ghost use Rattle.worlds.specs.Steps.{after};
ghost use Rattle.worlds.specs.Tickets.{every, lawful_effect, apart, lawful_outcome};
ghost use Rattle.worlds.specs.Worlds.{World, speaks_within};
ghost use Rattle.map_bank.specs.Numbers.{number, in_words};
ghost use Rattle.map_bank.specs.RowSets.{worlds_of, Keeps};
ghost use Rattle.map_bank.specs.Successors.{made, Masked, gives, some_from};

use crate::row::Row;
use crate::words::{has, meet_mask};
use worlds::step::{Effect, Literal, Outcome};

// The number of a world with one literal made so.
fn changed(world: usize, literal: Literal) -> usize
    requires { speaks_within 10 literal ≡ true }
    ensures { (n : ℕ) (w : World n) → n ≤ 10 → speaks_within n literal ≡ true → number n w ≡ world → result ≡ number n (made n literal w) }
{
    let one = 1usize << (literal.unsigned_abs() - 1);
    if literal > 0 {
        world | one
    } else {
        world & !one
    }
}

// Of word k, the worlds that meet each effect. They stand beside the effects, which are lent: four words in place.
fn effect_masks(effects: &[Effect], k: usize) -> [u64; 4]
    requires { (every (lawful_effect 10) (map effect_of effects.now) ≡ true) × (length effects.now ≤ 4) × (k < 16) }
    ensures { Masked k effects.now result }
{
    let mut masks = [0; 4];
    // By place: nothing is known of what an adapter of `iter_mut` leaves behind.
    for (i, effect) in effects.iter().enumerate() {
        masks[i] = meet_mask(effect.conditions.as_slice(), k);
    }
    masks
}

// The number of the world after an outcome's effects. No two that a world meets contradict each other, so they can be taken
// one by one.
fn world_after(world: usize, effects: &[Effect], masks: &[u64; 4]) -> usize
    requires { (every (lawful_effect 10) (map effect_of effects.now) ≡ true) × (length effects.now ≤ 4) × Masked (world / 64) effects.now masks.now }
    ensures { (n : ℕ) (w : World n) → n ≤ 10 → every (lawful_effect n) (map effect_of effects.now) ≡ true → apart n (map effect_of effects.now) ≡ true → number n w ≡ world → result ≡ number n (after n (map effect_of effects.now) w) }
{
    let mut next = world;
    for (effect, mask) in effects.iter().zip(masks) {
        let met = mask >> (world % 64) & 1 == 1;
        if met {
            next = changed(next, effect.result);
        }
    }
    next
}

impl Row {
    // Puts in the worlds that an outcome gives from the worlds in word k of another set.
    fn put_word(&mut self, from: &Row, k: usize, effects: &[Effect])
        requires { (self.old.conditions ≡ from.now.conditions) × (k < 16) × (lawful_outcome from.now.conditions (map effect_of effects.now) ≡ true) }
        ensures conditions { self.new.conditions ≡ self.old.conditions }
        ensures worlds { (x : ℕ) → in_words self.new.words x ≡ (in_words self.old.words x || some_from (64 * k) 64 (gives from.now.conditions (map effect_of effects.now) from.now.words x)) }
    {
        let masks = effect_masks(effects, k);
        // Over the numbers of the worlds of a word, which no list holds.
        for b in 0..64 {
            let world = 64 * k + b;
            if has(&from.words, world) {
                self.put(world_after(world, effects, &masks));
            }
        }
    }

    // Puts in the worlds that an outcome gives from the worlds of another set.
    fn put_outcome(&mut self, from: &Row, outcome: &Outcome)
        requires { (self.old.conditions ≡ from.now.conditions) × (lawful_outcome from.now.conditions (outcome_of outcome.now) ≡ true) }
        ensures conditions { self.new.conditions ≡ self.old.conditions }
        ensures worlds { (x : ℕ) → in_words self.new.words x ≡ (in_words self.old.words x || some_from 0 1024 (gives from.now.conditions (outcome_of outcome.now) from.now.words x)) }
    {
        let effects = outcome.effects.as_slice();
        for (k, word) in from.words.iter().enumerate() {
            // Small sets, and sets of few conditions, leave most words empty.
            if *word != 0 {
                self.put_word(from, k, effects);
            }
        }
    }

    // The worlds that any of some outcomes gives from the worlds of the set.
    pub(crate) fn successor(&self, outcomes: &[Outcome]) -> Row
        requires { every (lawful_outcome self.now.conditions) (map outcome_of outcomes.now) ≡ true }
        ensures { Keeps result self.now.conditions (successor self.now.conditions (map outcome_of outcomes.now) (worlds_of self.now)) }
    {
        let mut next = Row::empty(self.conditions);
        for outcome in outcomes {
            next.put_outcome(self, outcome);
        }
        next
    }
}
