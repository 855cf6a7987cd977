// What is gathered from the records of one chain. The loop over a chain is written once, for every draft.
ghost use Rattle.std.specs.Prelude.{ℕ, List, []};
ghost use Rattle.records.specs.Judging.{Place};
ghost use Rattle.ticket.specs.Drafts.{Added, Gathered};

use crate::chain_reader::ChainReader;
use crate::node::Node;
use records::refusal::Refusal;

pub(crate) trait Draft {
    // that the draft is just what these records of a chain at this place hold, in this file of n conditions
    ghost holds: { Self → List ℕ → ℕ → Place → List ℕ → Type 0 };

    // Adds the next record of the chain with all that is under it, or answers the first fault there.
    fn add(&mut self, node: &Node<'_>) -> Result<(), Refusal>
        ensures { (place : Place) (earlier : List ℕ) → let f = node.now.file.bytes.now in let n = node.now.file.conditions in holds self.old f n place earlier → Added f n place earlier node.now.part.number (holds self.new f n place) result };
}

// Gathers the whole chain, or answers its first fault.
pub(crate) fn gather<D: Draft>(draft: &mut D, mut chain: ChainReader<'_>) -> Result<(), Refusal>
    ensures { (place : Place) → let f = chain.entry.file.bytes.now in let n = chain.entry.file.conditions in D.holds draft.old f n place [] → Gathered f n place chain.entry.place (D.holds draft.new f n place) result }
{
    while let Some(node) = chain.take()? {
        draft.add(&node)?;
    }
    Ok(())
}
