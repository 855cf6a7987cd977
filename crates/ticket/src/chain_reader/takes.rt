ghost use Rattle.std.specs.Prelude.{◌≡◌, ◌+◌, ◌*◌, ◌≤◌, ◌&&◌, length};
ghost use Rattle.records.specs.Layout.{leads_on, part, below, next};
ghost use Rattle.ticket.specs.Takes.{Opens, Takes};

use crate::chain_reader::ChainReader;
use crate::file::File;
use crate::node::Node;
use records::head::read_head;
use records::part::Part;
use records::refusal::{Fault, Refusal};

// Whether a link of record `number` ends the chain or leads on to a later record of the file.
fn leads_on(file: &[u8], number: u16, link: u16) -> bool
    ensures { result ≡ leads_on file.now number link }
{
    link == 0 || (number < link && 8 * usize::from(link) + 8 <= file.len())
}

// Whether both links of a record are good.
fn links_good(file: &[u8], part: &Part<'_>) -> bool
    ensures { result ≡ (leads_on file.now part.now.number (below part.now.bytes.now) && leads_on file.now part.now.number (next part.now.bytes.now)) }
{
    leads_on(file, part.number, part.below()) && leads_on(file, part.number, part.next())
}

// The record of that number, with the bytes that it covers.
fn part_at(file: &[u8], number: u16) -> Part<'_>
    requires { 8 * number + 8 ≤ length file.now }
    ensures number { result.number ≡ number }
    ensures bytes { result.bytes.now ≡ part file.now number }
{
    let (records, _) = file.as_chunks::<8>();
    Part {
        number,
        bytes: &records[usize::from(number)],
    }
}

impl<'a> ChainReader<'a> {
    // The top chain of a file, once record 0 is found good.
    pub(crate) fn top(bytes: &'a [u8]) -> Result<ChainReader<'a>, Refusal>
        ensures { Opens bytes.now result }
    {
        let head = read_head(bytes)?;
        Ok(ChainReader {
            file: File {
                bytes,
                conditions: head.conditions,
            },
            place: head.top,
        })
    }

    // The next record, once both its links are found good; nothing at the end of the chain.
    pub(crate) fn take(&mut self) -> Result<Option<Node<'a>>, Refusal>
        ensures { Takes self.old self.new result }
    {
        if self.place == 0 {
            return Ok(None);
        }
        let file = self.file;
        let part = part_at(file.bytes, self.place);
        if !links_good(file.bytes, &part) {
            return Err(part.refused(Fault::Link));
        }
        self.place = part.next();
        Ok(Some(Node { file, part }))
    }
}
