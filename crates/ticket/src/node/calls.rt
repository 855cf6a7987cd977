ghost use Rattle.std.specs.Prelude.{◌≡◌, ◌<◌, false, OnOk};
ghost use Rattle.records.specs.Judging.{fault_of, verdict};
ghost use Rattle.records.specs.Layout.{below, kind};
ghost use Rattle.ticket.specs.Nodes.{ReadsNode};

use crate::chain_reader::ChainReader;
use crate::node::Node;
use records::refusal::Refusal;

impl<'a> Node<'a> {
    // The chain under the record.
    pub(crate) fn below(&self) -> ChainReader<'a>
        ensures { (result.file ≡ self.now.file) × (result.place ≡ below self.now.part.bytes.now) }
    {
        ChainReader {
            file: self.file,
            place: self.part.below(),
        }
    }

    // Judges the record by itself, in a chain with room for so many of its kind, of which so many stand before it.
    pub(crate) fn judged(&self, room: usize, standing: usize) -> Result<(), Refusal>
        ensures { result ≡ verdict self.now.part.number (fault_of self.now.file.conditions (kind self.now.part.bytes.now) room standing false self.now.part.bytes.now) }
    {
        self.part.judged(self.file.conditions, room, standing)
    }

    // Judges the record by itself, as `judged`, and next reads it with the chain under it.
    pub(crate) fn read<X, F: FnOnce(&Node<'a>) -> Result<X, Refusal>>(
        &self,
        room: usize,
        standing: usize,
        read: F,
    ) -> Result<X, Refusal>
        requires { F.IsAlwaysCallable read }
        ensures answer { ReadsNode (F.post read self.entry) self.now room standing result }
        ensures room { OnOk result (standing < room) }
    {
        self.judged(room, standing)?;
        read(self)
    }
}
