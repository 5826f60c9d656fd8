// What may be mistakes in a text that is accepted.

use crate::declarations::look_at_program;
use crate::finding::Finding;
use crate::nodes::{has_stateless_filter, moves_items_singly, needed_nodes};
use crate::sentences::{finding_message, more_message, node_message, remark_message};
use std::alloc::Global;
use strc_cli_diagnostics::message::Message;
use strc_cli_source::nodes::NamedGraph;
use strc_cli_source::source::Source;
use strc_elab::elaborate::elaborate;
use strc_elab_flattening::flatten::flatten;
use strc_elab_graph::graph::Graph;
use strc_elab_paths::paths::paths_of;
use strc_lex::lexer::lex;
use strc_lex_names::memory::NoMemory;
use strc_parse::parse;

const SINGLY: &[u8] = b"each filter moves one item a firing: one that moves a block of items \
    costs less, and `run` goes by many rounds at a time where that changes nothing (`--batch`)";

const NOTHING_TO_SPLIT: &[u8] = b"`--ways` can split nothing: each filter prints or keeps a state";

/// How many parts of a text, and how many nodes, are told.
const SHOWN: usize = 20;

/// What may be mistakes in a text: a message for each; none where the text has no flat graph.
///
/// `main` is the main stream that was asked for. At most 20 parts of the text are told, and 20
/// nodes. Err comes only where memory runs out.
pub fn lint_messages<'a>(
    alloc: Global,
    text: &'a [u8],
    main: Option<&'a str>,
) -> Result<Vec<Message>, NoMemory> {
    let mut messages = Vec::new(alloc);
    let Ok(tokens) = lex(alloc, text) else {
        return Ok(messages);
    };
    let Ok(program) = parse(alloc, &tokens) else {
        return Ok(messages);
    };
    let Ok(stream) = elaborate(alloc, &program, main) else {
        return Ok(messages);
    };
    let Ok(graph) = flatten(alloc, &stream) else {
        return Ok(messages);
    };
    let source = Source {
        text,
        tokens: &tokens,
        main,
    };
    let mut findings = Vec::new(alloc);
    look_at_program(alloc, &program, &tokens, &mut findings)?;
    add_findings(alloc, source, &findings, &mut messages)?;
    let paths = paths_of(alloc, &stream)?;
    let named = NamedGraph {
        graph: &graph,
        paths: &paths,
    };
    add_nodes(alloc, named, &mut messages)?;
    add_remarks(alloc, &graph, &mut messages)?;
    Ok(messages)
}

/// A message for each of the first parts of a text.
fn add_findings(
    alloc: Global,
    source: Source<'_>,
    findings: &[Finding],
    messages: &mut Vec<Message>,
) -> Result<(), NoMemory> {
    for finding in &findings[..findings.len().min(SHOWN)] {
        messages.push(finding_message(alloc, source, *finding)?)?;
    }
    add_more(alloc, findings.len(), messages)
}

/// A message for each of the first nodes on which no output depends.
fn add_nodes(
    alloc: Global,
    named: NamedGraph<'_>,
    messages: &mut Vec<Message>,
) -> Result<(), NoMemory> {
    let needed = needed_nodes(alloc, named.graph)?;
    let mut count = 0usize;
    for (node, is_needed) in needed.iter().enumerate() {
        if *is_needed {
            continue;
        }
        count = count.saturating_add(1);
        if count <= SHOWN {
            messages.push(node_message(alloc, named, node)?)?;
        }
    }
    add_more(alloc, count, messages)
}

/// How many more there are than are told.
fn add_more(alloc: Global, count: usize, messages: &mut Vec<Message>) -> Result<(), NoMemory> {
    if count > SHOWN {
        messages.push(more_message(alloc, count - SHOWN)?)?;
    }
    Ok(())
}

/// What is to be said of the whole program.
fn add_remarks(alloc: Global, graph: &Graph, messages: &mut Vec<Message>) -> Result<(), NoMemory> {
    if moves_items_singly(graph) {
        messages.push(remark_message(alloc, SINGLY)?)?;
    }
    if !has_stateless_filter(graph) {
        messages.push(remark_message(alloc, NOTHING_TO_SPLIT)?)?;
    }
    Ok(())
}
