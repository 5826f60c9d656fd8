// What a run comes to, as a text: each word with a slash after it where it ends its line, or else
// a space; the tapes, with a semicolon between two; and the fault.

use std::alloc::{AllocError, Global};
use strc_sched_outcome::outcome::{Outcome, Round, Tape};
use strc_sched_outcome::stop::Stop;
use strc_stage_steps::CollectorParts;
use strc_work_meaning::fault::Cause;
use strc_work_meaning::word::Word;

/// An outcome.
pub fn told(alloc: Global, outcome: &Outcome) -> Result<String, AllocError> {
    match outcome {
        Outcome::Done(tapes) => told_tapes(alloc, tapes),
        Outcome::Fault {
            node,
            firing,
            round,
            cause,
            tapes,
        } => {
            let mut text = told_tapes(alloc, tapes)?;
            text.push_str(&told_fault(alloc, *node, *firing, *round, cause.cause())?)?;
            Ok(text)
        }
    }
}

/// What a collector has come to.
pub fn told_collector(alloc: Global, parts: &CollectorParts) -> Result<String, AllocError> {
    let mut text = told_lists(alloc, &parts.words)?;
    let stop = match &parts.stop {
        None => String::new(alloc),
        Some(Stop::NoMemory) => String::from_str(alloc, " out of memory")?,
        Some(
            Stop::Fault {
                node,
                firing,
                cause,
            },
        ) => told_fault(
            alloc,
            *node,
            *firing,
            Round::At(parts.gathered),
            cause.cause(),
        )?,
    };
    text.push_str(&stop)?;
    Ok(text)
}

/// A fault.
pub fn told_fault(
    alloc: Global,
    node: u32,
    firing: u64,
    round: Round,
    cause: Cause,
) -> Result<String, AllocError> {
    match round {
        Round::Startup => {
            format!(in alloc; " fault {cause} node {node} firing {firing} startup")
        }
        Round::At(round) => {
            format!(in alloc; " fault {cause} node {node} firing {firing} round {round}")
        }
    }
}

fn told_tapes(alloc: Global, tapes: &[Tape]) -> Result<String, AllocError> {
    let mut text = String::new(alloc);
    for (number, tape) in tapes.iter().enumerate() {
        add_tape(alloc, &mut text, number, &tape.words)?;
    }
    Ok(text)
}

fn told_lists(alloc: Global, lists: &[Vec<Word>]) -> Result<String, AllocError> {
    let mut text = String::new(alloc);
    for (number, words) in lists.iter().enumerate() {
        add_tape(alloc, &mut text, number, words)?;
    }
    Ok(text)
}

fn add_tape(
    alloc: Global,
    text: &mut String,
    number: usize,
    words: &[Word],
) -> Result<(), AllocError> {
    if number > 0 {
        text.push_str(";")?;
    }
    for word in words {
        let end = if word.ends_line { "/" } else { " " };
        text.push_str(&format!(in alloc; "{}{end}", word.value)?)?;
    }
    Ok(())
}
