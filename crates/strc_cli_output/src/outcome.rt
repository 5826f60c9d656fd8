// The text of a run's outcome: its tapes and the fault line.

ghost use Rattle.std.specs.Prelude.{◌≡◌, ◌++◌, [], slice_index_or, IfOk, OnOk};
ghost use Rattle.strc_elab_graph.specs.NodeView.{node_names};
ghost use Rattle.strc_cli_output.specs.Output as spec;

use crate::text::Piece::{Bytes, Number};
use crate::text::{push_bytes, push_integer, push_pieces};
use std::alloc::{AllocError, Global};
use strc_elab_graph::graph::Graph;
use strc_sched_outcome::outcome::{Outcome, Round, Tape};
use strc_work_meaning::fault::Cause;
use strc_work_meaning::word::Word;

/// The text of the outcome of a graph's run. Where there are several tapes, each has a line with
/// its node before it.
pub fn outcome_text(alloc: Global, graph: &Graph, outcome: &Outcome) -> Result<Vec<u8>, AllocError>
    ensures { IfOk result (λ text. text.items
        ≡ spec.outcome_text (node_names graph.now) outcome.now) }
{
    let mut text = Vec::new(alloc);
    match outcome {
        Outcome::Done(tapes) => push_tapes(&mut text, graph, tapes)?,
        Outcome::Fault {
            node,
            firing,
            round,
            cause,
            tapes,
        } => {
            push_closed_tapes(&mut text, graph, tapes)?;
            push_fault(&mut text, *node, *firing, *round, cause.cause())?;
        }
    }
    Ok(text)
}

// The tapes of a run that is done.
fn push_tapes(text: &mut Vec<u8>, graph: &Graph, tapes: &[Tape]) -> Result<(), AllocError>
    ensures { OnOk result (text.new.items ≡ text.old.items
        ++ spec.tapes_text (node_names graph.now) tapes.now) }
{
    if tapes.len() == 1 {
        push_words(text, &tapes[0].words)
    } else {
        push_named_tapes(text, graph, tapes)
    }
}

// The tapes before the line of a fault.
fn push_closed_tapes(text: &mut Vec<u8>, graph: &Graph, tapes: &[Tape]) -> Result<(), AllocError>
    ensures { OnOk result (text.new.items ≡ text.old.items
        ++ spec.closed_tapes (node_names graph.now) tapes.now) }
{
    if tapes.len() == 1 {
        push_closed(text, &tapes[0].words)
    } else {
        push_named_tapes(text, graph, tapes)
    }
}

// Each tape after its line.
fn push_named_tapes(text: &mut Vec<u8>, graph: &Graph, tapes: &[Tape]) -> Result<(), AllocError>
    ensures { OnOk result (text.new.items ≡ text.old.items
        ++ spec.tape_texts (node_names graph.now) 0 tapes.now) }
{
    for number in 0..tapes.len() {
        push_tape(text, graph, number, &tapes[number])?;
    }
    Ok(())
}

/// A tape after its line.
pub fn push_tape(
    text: &mut Vec<u8>,
    graph: &Graph,
    number: usize,
    tape: &Tape,
) -> Result<(), AllocError>
    ensures { OnOk result (text.new.items ≡ text.old.items
        ++ spec.tape_text (node_names graph.now) number tape.now) }
{
    push_tape_line(text, number, tape.node, name_at(graph, tape.node))?;
    push_closed(text, &tape.words)
}

// The name of a node; nothing where there is none.
fn name_at(graph: &Graph, node: u32) -> &[u8]
    ensures { result.now ≡ slice_index_or (node_names graph.now) node [] }
{
    let place = node as usize;
    if place < graph.nodes().len() {
        graph.name(place)
    } else {
        b""
    }
}

// The line of a tape: its number, and its node with its name.
fn push_tape_line(
    text: &mut Vec<u8>,
    number: usize,
    node: u32,
    name: &[u8],
) -> Result<(), AllocError>
    ensures { OnOk result (text.new.items ≡ text.old.items
        ++ spec.tape_line number node name.now) }
{
    push_pieces(
        text,
        &[
            Bytes(b"tape "),
            Number(number as u64),
            Bytes(b" node "),
            Number(u64::from(node)),
            Bytes(b" "),
            Bytes(name),
            Bytes(b"\n"),
        ],
    )
}

/// Words whose last line is closed.
pub fn push_closed(text: &mut Vec<u8>, words: &[Word]) -> Result<(), AllocError>
    ensures { OnOk result (text.new.items ≡ text.old.items ++ spec.closed_text words.now) }
{
    push_words(text, words)?;
    if leaves_line_open(words) {
        push_bytes(text, b"\n")?;
    }
    Ok(())
}

/// Each word in decimal, and a line feed after those that end a line.
pub fn push_words(text: &mut Vec<u8>, words: &[Word]) -> Result<(), AllocError>
    ensures { OnOk result (text.new.items ≡ text.old.items ++ spec.words_text words.now) }
{
    for word in words {
        push_integer(text, word.value)?;
        if word.ends_line {
            push_bytes(text, b"\n")?;
        }
    }
    Ok(())
}

/// Whether the last word leaves its line open.
pub fn leaves_line_open(words: &[Word]) -> bool
    ensures { result ≡ spec.leaves_open words.now }
{
    match words.last() {
        Some(word) => !word.ends_line,
        None => false,
    }
}

/// The line of a fault: its cause, the node, how often it had fired before, and when.
pub fn push_fault(
    text: &mut Vec<u8>,
    node: u32,
    firing: u64,
    round: Round,
    cause: Cause,
) -> Result<(), AllocError>
    ensures { OnOk result (text.new.items ≡ text.old.items
        ++ spec.fault_line node firing round cause) }
{
    push_pieces(
        text,
        &[
            Bytes(b"fault "),
            Bytes(cause_name(cause)),
            Bytes(b" node "),
            Number(u64::from(node)),
            Bytes(b" firing "),
            Number(firing),
        ],
    )?;
    push_round(text, round)?;
    push_bytes(text, b"\n")
}

// When a firing faulted.
fn push_round(text: &mut Vec<u8>, round: Round) -> Result<(), AllocError>
    ensures { OnOk result (text.new.items ≡ text.old.items ++ spec.round_words round) }
{
    match round {
        Round::Startup => push_bytes(text, b" startup"),
        Round::At(number) => push_pieces(text, &[Bytes(b" round "), Number(u64::from(number))]),
    }
}

// Why a firing faults, by its name.
pub(crate) fn cause_name(cause: Cause) -> &'static [u8]
    ensures { result.now ≡ spec.cause_name cause }
{
    match cause {
        Cause::DivZero => b"DivZero",
        Cause::Index => b"Index",
        Cause::PeekRange => b"PeekRange",
        Cause::Turns => b"Turns",
        Cause::Calls => b"Calls",
    }
}
