// The texts of tapes of which some go to files of their own.

ghost use Rattle.std.specs.Prelude.{◌≡◌, ◌++◌, IfOk, OnOk, map};
ghost use Rattle.strc_elab_graph.specs.NodeView.{node_names};
ghost use Rattle.strc_out_files.specs.Texts as spec;
ghost use Rattle.strc_out_files.specs.Texts.{closed_staying, file_texts, numbered_texts, pairs_of};
ghost use Rattle.strc_out_files.specs.Texts.{staying_text};
ghost use Rattle.strc_cli_tapes.specs.Parted.{staying_from, words_of as node_words};
ghost use Rattle.strc_cli_output.specs.Output.{words_text};

use std::alloc::{AllocError, Global};
use strc_cli_output::outcome::{push_closed, push_fault, push_tape, push_words};
use strc_cli_tapes::parted::{NumberedTape, staying, words_of};
use strc_elab_graph::graph::Graph;
use strc_sched_outcome::outcome::{Outcome, Tape};

/// What is written of the outcome of a graph's run where the tapes of these nodes go to files. A
/// tape that stays alone is its words; each of several has a line before it, with the number that
/// it has among all tapes.
pub(crate) fn parted_text(
    alloc: Global,
    graph: &Graph,
    outcome: &Outcome,
    given: &[usize],
) -> Result<Vec<u8>, AllocError>
    ensures { IfOk result (λ text. text.items
        ≡ spec.parted_text (node_names graph.now) given.now outcome.now) }
{
    let mut text = Vec::new(alloc);
    match outcome {
        Outcome::Done(tapes) => push_staying(&mut text, graph, &staying(alloc, tapes, given)?)?,
        Outcome::Fault {
            node,
            firing,
            round,
            cause,
            tapes,
        } => {
            push_closed_staying(&mut text, graph, &staying(alloc, tapes, given)?)?;
            push_fault(&mut text, *node, *firing, *round, cause.cause())?;
        }
    }
    Ok(text)
}

// The tapes that stay of a run that is done.
fn push_staying(
    text: &mut Vec<u8>,
    graph: &Graph,
    tapes: &[NumberedTape<'_>],
) -> Result<(), AllocError>
    ensures { OnOk result (text.new.items ≡ text.old.items
        ++ staying_text (node_names graph.now) (pairs_of tapes.now)) }
{
    if tapes.len() == 1 {
        let alone = tapes[0].tape;
        push_words(text, &alone.words)
    } else {
        push_numbered(text, graph, tapes)
    }
}

// The tapes that stay, before the line of a fault.
fn push_closed_staying(
    text: &mut Vec<u8>,
    graph: &Graph,
    tapes: &[NumberedTape<'_>],
) -> Result<(), AllocError>
    ensures { OnOk result (text.new.items ≡ text.old.items
        ++ closed_staying (node_names graph.now) (pairs_of tapes.now)) }
{
    if tapes.len() == 1 {
        let alone = tapes[0].tape;
        push_closed(text, &alone.words)
    } else {
        push_numbered(text, graph, tapes)
    }
}

// Each tape after its line.
fn push_numbered(
    text: &mut Vec<u8>,
    graph: &Graph,
    tapes: &[NumberedTape<'_>],
) -> Result<(), AllocError>
    ensures { OnOk result (text.new.items ≡ text.old.items
        ++ numbered_texts (node_names graph.now) (pairs_of tapes.now)) }
{
    for it in tapes {
        push_tape(text, graph, it.number, it.tape)?;
    }
    Ok(())
}

/// The text of the words of each of these nodes.
pub(crate) fn texts_of(
    alloc: Global,
    outcome: &Outcome,
    given: &[usize],
) -> Result<Vec<Vec<u8>>, AllocError>
    ensures { IfOk result (λ texts. map (λ text. text.items) texts.items
        ≡ file_texts given.now (spec.tapes_of outcome.now)) }
{
    let tapes = tapes_of(outcome);
    let mut texts = Vec::with_capacity(alloc, given.len())?;
    for node in given {
        texts.push(text_of(alloc, tapes, *node)?)?;
    }
    Ok(texts)
}

// The text of a node's words.
fn text_of(alloc: Global, tapes: &[Tape], node: usize) -> Result<Vec<u8>, AllocError>
    ensures { IfOk result (λ text. text.items ≡ words_text (node_words tapes.now node)) }
{
    let mut text = Vec::new(alloc);
    push_words(&mut text, words_of(tapes, node))?;
    Ok(text)
}

// The tapes of an outcome.
fn tapes_of(outcome: &Outcome) -> &[Tape]
    ensures { result.now ≡ spec.tapes_of outcome.now }
{
    match outcome {
        Outcome::Done(tapes) => tapes,
        Outcome::Fault { tapes, .. } => tapes,
    }
}
