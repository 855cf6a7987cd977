// Lists of literals, and the chains that hold nothing else.
ghost use Rattle.std.specs.Prelude.{◌≡◌, [], ◌∷◌, ◌++◌, length, is_ok, if◌then◌else◌};
ghost use Rattle.worlds.specs.Meaning.{listed};
ghost use Rattle.worlds.specs.Worlds.{has_literal, opposite};
ghost use Rattle.records.specs.Layout.{kind, value, below};
ghost use Rattle.records.specs.Judging.{Place, fault_of, verdict};
ghost use Rattle.ticket.specs.Drafts.{Reads};
ghost use Rattle.ticket.specs.Gathers.{TakesLiterals, HoldsLiterals, ListRead};

use crate::append::append;
use crate::draft::{Draft, gather};
use crate::node::Node;
use records::kinds::Record;
use records::opposites::is_opposed;
use records::refusal::{Fault, Refusal};
use worlds::few::Few;
use worlds::step::Literal;

// Adds the literal of a record to the list of its chain, or says what is at fault with the record.
pub(crate) fn push_literal<const N: usize>(
    list: &mut Few<Literal, N>,
    node: &Node<'_>,
) -> Result<(), Refusal>
    ensures answer { let r = node.now.part.bytes.now in kind r ≡ 5 → result ≡ verdict node.now.part.number (fault_of node.now.file.conditions 5 N (length (listed list.old)) (has_literal (opposite (value r)) (listed list.old)) r) }
    ensures items { kind node.now.part.bytes.now ≡ 5 → listed list.new ≡ (if is_ok result then listed list.old ++ value node.now.part.bytes.now ∷ [] else listed list.old) }
{
    node.judged(N, list.len())?;
    let literal = node.part.value();
    if is_opposed(list.as_slice(), literal) {
        return Err(node.part.refused(Fault::Opposite));
    }
    append(list, literal);
    Ok(())
}

impl<const N: usize> Draft for Few<Literal, N> {
    ghost holds = { λ list f n place ks. HoldsLiterals N (listed list) f n place ks };

    #[tactic(auto, using(crate::proofs::Records::unrecognised))]
    fn add(&mut self, node: &Node<'_>) -> Result<(), Refusal> {
        match Record::try_from(node.part)? {
            Record::Literal(_) => push_literal(self, node),
            _ => Err(node.part.refused(Fault::Kind)),
        }
    }
}

// Reads the literals under a record whose chain takes up to N of them and nothing else: a term, an aim or an effect.
pub(crate) fn read_literals<const N: usize>(node: &Node<'_>) -> Result<Few<Literal, N>, Refusal>
    ensures { (place : Place) → let f = node.now.file.bytes.now in let n = node.now.file.conditions in let k = below node.now.part.bytes.now in TakesLiterals N place → Reads f n place k (λ list. ListRead N f n k (listed list)) result }
{
    let mut list = Few::none(0);
    gather(&mut list, node.below())?;
    Ok(list)
}
