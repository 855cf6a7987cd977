// The precondition and the outcomes of the chain under an action.
ghost use Rattle.std.specs.Prelude.{◌≡◌, ℕ, true, List, map, unsigned_abs};
ghost use Rattle.worlds.specs.Meaning.{listed, outcome_of, step_of};
ghost use Rattle.records.specs.Layout.{kind, value, below};
ghost use Rattle.records.specs.Content.{chain, among, outcome_at, action_from};
ghost use Rattle.records.specs.Judging.{class_good, under_action};
ghost use Rattle.ticket.specs.Drafts.{ReadsWhole};
ghost use Rattle.ticket.specs.Gathers.{HoldsAction, AddsOutcome, StepRead};

use crate::append::append;
use crate::draft::{Draft, gather};
use crate::literals::push_literal;
use crate::node::Node;
use crate::outcomes::{no_effects, read_outcome};
use records::kinds::Record;
use records::refusal::{Fault, Refusal};
use worlds::few::Few;
use worlds::step::{Action, Outcome, Step, Term};

#[derive(Clone, Copy)]
struct ActionDraft {
    precondition: Term,
    outcomes: Few<Outcome, 4>,
}

// Adds the outcome of a record to those before it in its chain.
fn add_outcome(outcomes: &mut Few<Outcome, 4>, node: &Node<'_>) -> Result<(), Refusal>
    ensures { (ks : List ℕ) → let f = node.now.file.bytes.now in kind node.now.part.bytes.now ≡ 6 → map outcome_of (listed outcomes.old) ≡ map (outcome_at f) (among f 6 ks) → AddsOutcome f node.now.file.conditions ks node.now.part.number (map outcome_of (listed outcomes.old)) (map outcome_of (listed outcomes.new)) result }
{
    let outcome = node.read(4, outcomes.len(), read_outcome)?;
    append(outcomes, outcome);
    Ok(())
}

impl Draft for ActionDraft {
    ghost holds = { λ d f n place ks. HoldsAction (listed d.precondition) (map outcome_of (listed d.outcomes)) f n place ks };

    #[tactic(auto, using(crate::proofs::Records::unrecognised))]
    fn add(&mut self, node: &Node<'_>) -> Result<(), Refusal> {
        match Record::try_from(node.part)? {
            Record::Literal(_) => push_literal(&mut self.precondition, node),
            Record::Outcome(_) => add_outcome(&mut self.outcomes, node),
            _ => Err(node.part.refused(Fault::Kind)),
        }
    }
}

// Reads the action of a record from the chain under it.
pub(crate) fn read_action(node: &Node<'_>) -> Result<Step, Refusal>
    ensures { let f = node.now.file.bytes.now in let n = node.now.file.conditions in let r = node.now.part.bytes.now in class_good (value r) ≡ true → ReadsWhole f n under_action node.now.part.number (below r) (λ s. StepRead n (action_from f (unsigned_abs (value r)) (chain f (below r))) (step_of s)) result }
{
    let mut draft = ActionDraft {
        precondition: Few::none(0),
        outcomes: Few::none(no_effects()),
    };
    gather(&mut draft, node.below())?;
    if draft.outcomes.len() == 0 {
        return Err(node.part.refused(Fault::Missing));
    }
    Ok(Step::Action(Action {
        class: node.part.class(),
        precondition: draft.precondition,
        outcomes: draft.outcomes,
    }))
}
