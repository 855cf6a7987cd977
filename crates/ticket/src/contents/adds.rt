// What the records of the top chain add: terms, the aim and steps, one at a time.
ghost use Rattle.std.specs.Prelude.{◌≡◌, ℕ, List};
ghost use Rattle.records.specs.Judging.{Place};
ghost use Rattle.records.specs.Layout.{group, kind};
ghost use Rattle.ticket.specs.Drafts.{Added};
ghost use Rattle.ticket.specs.Contents.{HoldsContents};
ghost use Rattle.ticket.specs.Nodes.{ReadsStep};

use crate::contents::Contents;
use crate::literals::read_literals;
use crate::node::Node;
use records::refusal::Refusal;
use worlds::step::Step;

impl Contents {
    // Adds the term of a record.
    pub(crate) fn add_term(&mut self, node: &Node<'_>) -> Result<(), Refusal>
        ensures { (place : Place) (ks : List ℕ) → let f = node.now.file.bytes.now in let n = node.now.file.conditions in kind node.now.part.bytes.now ≡ 1 → HoldsContents self.old f n place ks → Added f n place ks node.now.part.number (HoldsContents self.new f n place) result }
    {
        let term = node.read(256, self.terms.len(), read_literals)?;
        self.terms.push_reserved(term);
        Ok(())
    }

    // Takes the aim of a record, the only one.
    pub(crate) fn add_aim(&mut self, node: &Node<'_>) -> Result<(), Refusal>
        ensures { (place : Place) (ks : List ℕ) → let f = node.now.file.bytes.now in let n = node.now.file.conditions in kind node.now.part.bytes.now ≡ 2 → HoldsContents self.old f n place ks → Added f n place ks node.now.part.number (HoldsContents self.new f n place) result }
    {
        let aim = node.read(1, usize::from(self.aim.is_some()), read_literals)?;
        self.aim = Some(aim);
        Ok(())
    }

    // Adds the step of a record, by what reads steps of its kind.
    pub(crate) fn add_step<'a, F: FnOnce(&Node<'a>) -> Result<Step, Refusal>>(
        &mut self,
        node: &Node<'a>,
        read: F,
    ) -> Result<(), Refusal>
        requires { F.IsAlwaysCallable read }
        ensures { (place : Place) (ks : List ℕ) → let f = node.now.file.bytes.now in let n = node.now.file.conditions in group (kind node.now.part.bytes.now) ≡ 3 → ReadsStep (F.post read node.entry) node.now → HoldsContents self.old f n place ks → Added f n place ks node.now.part.number (HoldsContents self.new f n place) result }
    {
        let step = node.read(32, self.steps.len(), read)?;
        self.steps.push_reserved(step);
        Ok(())
    }
}
