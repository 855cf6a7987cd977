// Record 0: the mark, the number of conditions and the first record of the top chain.
ghost use Rattle.std.specs.Prelude.{◌≡◌};
ghost use Rattle.records.specs.Answers.{ReadsHead};

use crate::refusal::{Fault, Refusal};

#[derive(Clone, Copy)]
pub struct Head {
    pub conditions: u16,
    pub top: u16,
}

// The bytes with which every ticket file begins.
const MARK: [u8; 4] = *b"TKT1";

// Not by a `Part`: a file may be too short to have one.
fn refused(fault: Fault) -> Refusal
    ensures { result ≡ record { fault = fault; «record» = 0 } }
{
    Refusal { fault, record: 0 }
}

pub fn read_head(file: &[u8]) -> Result<Head, Refusal>
    ensures { ReadsHead file.now result }
{
    if !(8..=32768).contains(&file.len()) || file.len() % 8 != 0 {
        return Err(refused(Fault::Length));
    }
    if !file.starts_with(&MARK) {
        return Err(refused(Fault::Mark));
    }
    let conditions = u16::from_le_bytes([file[4], file[5]]);
    if !(1..=32).contains(&conditions) {
        return Err(refused(Fault::Conditions));
    }
    let top = u16::from_le_bytes([file[6], file[7]]);
    if 8 * usize::from(top) + 8 > file.len() {
        return Err(refused(Fault::Link));
    }
    Ok(Head { conditions, top })
}
