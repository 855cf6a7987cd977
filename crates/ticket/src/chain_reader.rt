// A chain of records in a ticket file: hands out one record after another, and judges their links.
ghost use Rattle.std.specs.Prelude.{◌+◌, ◌*◌, ◌≤◌, length};

use crate::file::File;

mod takes;

#[derive(Drop)]
pub(crate) struct ChainReader<'a> {
    pub(crate) file: File<'a>,
    // the record to be handed out next; zero ends the chain
    pub(crate) place: u16,
    ghost inside: { 8 * place + 8 ≤ length file.bytes.now },
}
