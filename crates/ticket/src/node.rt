// A record of a chain, in its file: both its links are good. Its kind is a premise of what adds it, since a type for each kind
// would serve hardly more than one function.
ghost use Rattle.std.specs.Prelude.{◌+◌, ◌*◌, ◌≤◌, length};
ghost use Rattle.ticket.specs.Chains.{Handed};

use crate::file::File;
use records::part::Part;

mod calls;

#[derive(Drop)]
pub(crate) struct Node<'a> {
    pub(crate) file: File<'a>,
    pub(crate) part: Part<'a>,
    ghost inside: { 8 * part.number + 8 ≤ length file.bytes.now },
    ghost handed: { Handed file.bytes.now part.number part },
}
