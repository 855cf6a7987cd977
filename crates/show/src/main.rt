// Prints a ticket file in words, or `ticket R K`: the number of its fault and the record at fault.
#![tactic(auto)]

mod words;

use anyhow::{Context, anyhow};
use std::alloc::Global;
use std::process::ExitCode;
use std::{env, fs};
use ticket::ticket::Ticket;
use words::{InWords, ListInWords};
use worlds::step::{Action, Outcome, Sensing, Step};

fn show_outcome(rt: &HostRuntime, outcome: &Outcome) -> anyhow::Result<()> {
    for effect in outcome.effects.as_slice() {
        let conditions = ListInWords(effect.conditions.as_slice());
        let result = InWords(effect.result);
        println!(rt; "    {conditions} gives {result}")?;
    }
    Ok(())
}

fn show_action(rt: &HostRuntime, number: usize, action: &Action) -> anyhow::Result<()> {
    let class = action.class;
    let precondition = ListInWords(action.precondition.as_slice());
    println!(rt; "step {number}: action, class {class}")?;
    println!(rt; "  requires: {precondition}")?;
    for (i, outcome) in action.outcomes.as_slice().iter().enumerate() {
        println!(rt; "  outcome {i}:")?;
        show_outcome(rt, outcome)?;
    }
    Ok(())
}

fn show_sensing(rt: &HostRuntime, number: usize, sensing: &Sensing) -> anyhow::Result<()> {
    let class = sensing.class;
    let precondition = ListInWords(sensing.precondition.as_slice());
    let sensed = InWords(sensing.sensed);
    println!(rt; "step {number}: sensing, class {class}")?;
    println!(rt; "  requires: {precondition}")?;
    println!(rt; "  senses: {sensed}")?;
    Ok(())
}

fn show_ticket(rt: &HostRuntime, ticket: &Ticket) -> anyhow::Result<()> {
    let n = ticket.conditions();
    println!(rt; "conditions {n}")?;
    for term in ticket.terms() {
        let list = ListInWords(term.as_slice());
        println!(rt; "start: {list}")?;
    }
    let aim = ticket.aim();
    let list = ListInWords(aim.as_slice());
    println!(rt; "aim: {list}")?;
    for (number, step) in ticket.steps().iter().enumerate() {
        match step {
            Step::Action(action) => show_action(rt, number, action)?,
            Step::Sensing(sensing) => show_sensing(rt, number, sensing)?,
        }
    }
    Ok(())
}

// Reads the whole file, or says which file cannot be read, and why.
fn read_file(rt: &HostRuntime, path: &str) -> anyhow::Result<Vec<u8>> {
    // One text for path and cause, cut as a whole where it is long; by `context` each would be cut by itself.
    match fs::read(rt, path) {
        Ok(file) => Ok(file),
        Err(e) => Err(anyhow!(format!(in rt.alloc(); "cannot read {path}: {e}")?)),
    }
}

fn run(rt: &HostRuntime) -> anyhow::Result<()> {
    let path = env::args(rt)?.nth(1).context("usage: show FILE")?;
    let file = read_file(rt, path.as_str())?;
    let mut ticket = Ticket::new(rt.alloc())?;
    match ticket.read(file.as_slice()) {
        Ok(()) => show_ticket(rt, &ticket),
        Err(refusal) => Ok(println!(rt; "{refusal}")?),
    }
}

// An error is told in one line of its own, and is the exit status 1.
fn main(rt: HostRuntime) -> anyhow::Result<ExitCode> {
    match run(&rt) {
        Ok(()) => Ok(ExitCode::SUCCESS),
        Err(e) => {
            eprintln!(rt; "show: {e}")?;
            Ok(ExitCode::FAILURE)
        }
    }
}
