// The precondition and the sensed literal of the chain under a sensing step.
ghost use Rattle.std.specs.Prelude.{◌≡◌, ℕ, true, List, map, unsigned_abs};
ghost use Rattle.std.specs.Option.{option_to_list};
ghost use Rattle.worlds.specs.Meaning.{listed, step_of};
ghost use Rattle.records.specs.Layout.{kind, value, below};
ghost use Rattle.records.specs.Content.{chain, among, literal_at, sensing_from};
ghost use Rattle.records.specs.Judging.{class_good, under_sensing};
ghost use Rattle.ticket.specs.Drafts.{ReadsWhole};
ghost use Rattle.ticket.specs.Gathers.{HoldsSensing, AddsSensed, StepRead};

use crate::draft::{Draft, gather};
use crate::literals::push_literal;
use crate::node::Node;
use records::kinds::Record;
use records::refusal::{Fault, Refusal};
use worlds::few::Few;
use worlds::step::{Literal, Sensing, Step, Term};

// A type apart from `ActionDraft`: what must be there differs, and what is made of it; `Draft` is what they share.
#[derive(Clone, Copy)]
struct SensingDraft {
    precondition: Term,
    sensed: Option<Literal>,
}

// Takes the sensed literal of a record, the only one of its chain. Judged alone: it has no chain under it for `Node::read` to go on to.
fn add_sensed(sensed: &mut Option<Literal>, node: &Node<'_>) -> Result<(), Refusal>
    ensures { (ks : List ℕ) → let f = node.now.file.bytes.now in kind node.now.part.bytes.now ≡ 8 → option_to_list sensed.old ≡ map (literal_at f) (among f 8 ks) → AddsSensed f node.now.file.conditions ks node.now.part.number (option_to_list sensed.new) result }
{
    node.judged(1, usize::from(sensed.is_some()))?;
    *sensed = Some(node.part.value());
    Ok(())
}

impl Draft for SensingDraft {
    ghost holds = { λ d f n place ks. HoldsSensing (listed d.precondition) (option_to_list d.sensed) f n place ks };

    #[tactic(auto, using(crate::proofs::Records::unrecognised))]
    fn add(&mut self, node: &Node<'_>) -> Result<(), Refusal> {
        match Record::try_from(node.part)? {
            Record::Literal(_) => push_literal(&mut self.precondition, node),
            Record::SensedLiteral(_) => add_sensed(&mut self.sensed, node),
            _ => Err(node.part.refused(Fault::Kind)),
        }
    }
}

// Reads the sensing step of a record from the chain under it.
pub(crate) fn read_sensing(node: &Node<'_>) -> Result<Step, Refusal>
    ensures { let f = node.now.file.bytes.now in let n = node.now.file.conditions in let r = node.now.part.bytes.now in class_good (value r) ≡ true → ReadsWhole f n under_sensing node.now.part.number (below r) (λ s. StepRead n (sensing_from f (unsigned_abs (value r)) (chain f (below r))) (step_of s)) result }
{
    let mut draft = SensingDraft {
        precondition: Few::none(0),
        sensed: None,
    };
    gather(&mut draft, node.below())?;
    let Some(sensed) = draft.sensed else {
        return Err(node.part.refused(Fault::Missing));
    };
    Ok(Step::Sensing(Sensing {
        class: node.part.class(),
        precondition: draft.precondition,
        sensed,
    }))
}
