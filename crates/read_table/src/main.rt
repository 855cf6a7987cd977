// A table of files with what Read answers of each. A line of the input is a name, the length of the file, and its bytes
// in hexadecimal up to the last one that is not zero; a line of the output is the name and the answer.
#![tactic(auto)]

use anyhow::Context;
use std::alloc::Global;
use ticket::ticket::Ticket;

// The value of a hexadecimal digit. By hand, since the library's `to_digit` takes capitals too.
fn digit(byte: u8) -> Option<u8> {
    match byte {
        b'0'..=b'9' => Some(byte - b'0'),
        b'a'..=b'f' => Some(byte - b'a' + 10),
        _ => None,
    }
}

// The bytes that a text of hexadecimal digits stands for, filled up with zeros.
fn bytes_of(alloc: Global, text: &str, length: usize) -> anyhow::Result<Vec<u8>> {
    let mut bytes = Vec::new(alloc);
    for pair in text.as_bytes().chunks_exact(2) {
        let high = digit(pair[0]).context("not a hexadecimal digit")?;
        let low = digit(pair[1]).context("not a hexadecimal digit")?;
        bytes.push((high & 15) * 16 + (low & 15))?;
    }
    bytes.resize(length.max(bytes.len()), 0)?;
    Ok(bytes)
}

fn answer(rt: &HostRuntime, ticket: &mut Ticket, line: &str) -> anyhow::Result<()> {
    let mut parts = line.split(' ');
    let name = parts.next().context("no name")?;
    let length = parts.next().context("no length")?;
    let text = parts.next().unwrap_or("");
    let bytes = bytes_of(rt.alloc(), text, length.parse::<usize>()?)?;
    match ticket.read(bytes.as_slice()) {
        Ok(()) => {
            let n = ticket.conditions();
            let terms = ticket.terms().len();
            let steps = ticket.steps().len();
            println!(rt; "{name} conditions {n} terms {terms} steps {steps}")?;
        }
        Err(refusal) => println!(rt; "{name} {refusal}")?,
    }
    Ok(())
}

fn run(rt: &HostRuntime) -> anyhow::Result<()> {
    let mut ticket = Ticket::new(rt.alloc())?;
    for line in rt.lines(rt.alloc()) {
        answer(rt, &mut ticket, line?.as_str())?;
    }
    Ok(())
}

fn main(rt: HostRuntime) -> anyhow::Result<()> {
    run(&rt)
}
