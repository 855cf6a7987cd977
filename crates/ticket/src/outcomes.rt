// The effects of the chain under an outcome.
ghost use Rattle.std.specs.Prelude.{◌≡◌, ℕ, true, List, [], map, length};
ghost use Rattle.worlds.specs.Meaning.{effect_of, outcome_of};
ghost use Rattle.worlds.specs.Tickets.{every, lawful_effect};
ghost use Rattle.records.specs.Layout.{below, kind};
ghost use Rattle.records.specs.Content.{among, effect_at};
ghost use Rattle.records.specs.Judging.{under_outcome};
ghost use Rattle.ticket.specs.Drafts.{Reads};
ghost use Rattle.ticket.specs.Gathers.{HoldsEffects, ReadsEffect, OutcomeRead};

use crate::append::append;
use crate::draft::{Draft, gather};
use crate::literals::read_literals;
use crate::node::Node;
use records::kinds::Record;
use records::opposites::is_clashing;
use records::refusal::{Fault, Refusal};
use worlds::few::Few;
use worlds::step::{Effect, Outcome};

// Reads one effect, after the earlier ones of its outcome.
fn read_effect(node: &Node<'_>, earlier: &[Effect]) -> Result<Effect, Refusal>
    ensures { (ks : List ℕ) → let f = node.now.file.bytes.now in let n = node.now.file.conditions in kind node.now.part.bytes.now ≡ 7 → length (among f 7 ks) ≡ length earlier.now → map effect_of earlier.now ≡ map (effect_at f) ks → every (lawful_effect n) (map effect_of earlier.now) ≡ true → ReadsEffect f n ks node.now.part.number (map effect_of earlier.now) result }
{
    node.judged(4, earlier.len())?;
    let effect = Effect {
        conditions: read_literals(node)?,
        result: node.part.value(),
    };
    if is_clashing(earlier, &effect) {
        return Err(node.part.refused(Fault::Opposite));
    }
    Ok(effect)
}

impl Draft for Outcome {
    ghost holds = { λ o f n place ks. HoldsEffects (outcome_of o) f n place ks };

    #[tactic(auto, using(crate::proofs::Records::unrecognised))]
    fn add(&mut self, node: &Node<'_>) -> Result<(), Refusal> {
        let Record::Effect(_) = Record::try_from(node.part)? else {
            return Err(node.part.refused(Fault::Kind));
        };
        let effect = read_effect(node, self.effects.as_slice())?;
        append(&mut self.effects, effect);
        Ok(())
    }
}

// The outcome that changes nothing.
pub(crate) fn no_effects() -> Outcome
    ensures { outcome_of result ≡ [] }
{
    let filler = Effect {
        conditions: Few::none(0),
        result: 0,
    };
    Outcome {
        effects: Few::none(filler),
    }
}

// Reads the outcome of a record from the chain under it.
pub(crate) fn read_outcome(node: &Node<'_>) -> Result<Outcome, Refusal>
    ensures { let f = node.now.file.bytes.now in let n = node.now.file.conditions in let k = below node.now.part.bytes.now in Reads f n under_outcome k (λ o. OutcomeRead f n k (outcome_of o)) result }
{
    let mut outcome = no_effects();
    gather(&mut outcome, node.below())?;
    Ok(outcome)
}
