ghost use Rattle.std.specs.Prelude.{◌≡◌, ◌||◌, [], ◌∷◌, length, IfOk, ◌==◌};
ghost use Rattle.ticket.specs.Gathers.{Fills};
ghost use Rattle.ticket.specs.Contents.{HoldsContents};
ghost use Rattle.ticket.specs.Meaning.{terms_of, aims_of, steps_of};

use crate::action_draft::read_action;
use crate::chain_reader::ChainReader;
use crate::contents::Contents;
use crate::draft::{Draft, gather};
use crate::node::Node;
use crate::sensing_draft::read_sensing;
use records::kinds::Record;
use records::refusal::{Fault, Refusal};
use std::alloc::{AllocError, Global};
use worlds::few::Few;
use worlds::step::Term;

impl Draft for Contents {
    ghost holds = { λ d f n place ks. HoldsContents d f n place ks };

    #[tactic(auto, using(crate::proofs::Records::unrecognised))]
    fn add(&mut self, node: &Node<'_>) -> Result<(), Refusal> {
        match Record::try_from(node.part)? {
            Record::Term(_) => self.add_term(node),
            Record::Aim(_) => self.add_aim(node),
            Record::Action(_) => self.add_step(node, read_action),
            Record::Sensing(_) => self.add_step(node, read_sensing),
            _ => Err(node.part.refused(Fault::Kind)),
        }
    }
}

impl Contents {
    // One term and an aim without literals and no steps, with room for all that a ticket may have.
    pub(crate) fn new(alloc: Global) -> Result<Contents, AllocError>
        ensures { IfOk result (λ d. (terms_of d ≡ [] ∷ []) × (aims_of d ≡ [] ∷ []) × (steps_of d ≡ [])) }
    {
        let mut terms = Vec::with_capacity(alloc, 256)?;
        let steps = Vec::with_capacity(alloc, 32)?;
        let list: Term = Few::none(0);
        terms.push_reserved(list);
        Ok(Contents {
            terms,
            aim: Some(list),
            steps,
        })
    }

    fn clear(&mut self)
        ensures { (terms_of self.new ≡ []) × (aims_of self.new ≡ []) × (steps_of self.new ≡ []) }
    {
        self.terms.clear();
        self.aim = None;
        self.steps.clear();
    }

    // Makes these contents those of another.
    pub(crate) fn copy_from(&mut self, other: &Contents)
        ensures { (terms_of self.new ≡ terms_of other.now) × (aims_of self.new ≡ aims_of other.now) × (steps_of self.new ≡ steps_of other.now) }
    {
        self.clear();
        // within the room that there is it cannot fail; of what adds to a `Vec`, only `push_reserved` has no Result
        let _ = self.terms.extend_from_slice(other.terms.as_slice());
        self.aim = other.aim;
        let _ = self.steps.extend_from_slice(other.steps.as_slice());
    }

    // Whether there is no term or no aim yet.
    fn is_incomplete(&self) -> bool
        ensures { result ≡ (length (terms_of self.now) == 0 || length (aims_of self.now) == 0) }
    {
        self.terms.is_empty() || self.aim.is_none()
    }

    // Fills the contents anew from the top chain.
    pub(crate) fn fill(&mut self, top: ChainReader<'_>) -> Result<(), Refusal>
        ensures { Fills top.entry.file.bytes.now top.entry.file.conditions top.entry.place (terms_of self.new) (aims_of self.new) (steps_of self.new) result }
    {
        self.clear();
        gather(self, top)?;
        if self.is_incomplete() {
            return Err(Refusal {
                fault: Fault::Missing,
                record: 0,
            });
        }
        Ok(())
    }
}
