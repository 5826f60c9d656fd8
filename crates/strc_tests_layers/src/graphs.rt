// The flat graphs of small streams: their nodes with their names, and their channels.

use crate::texts::code;
use std::alloc::{AllocError, Global};
use std::process::Abort;
use std::test::Fail;
use strc_elab_flattening::flatten::flatten;
use strc_elab_graph::graph::{Graph, Port, Splitter};
use strc_elab_graph::instance::Instance;
use strc_elab_stream::stream::Stream;
use strc_lex_names::name::{Name, StringLiteral};

/// A stream of the only filter in a text, with a name or without one.
fn filter(alloc: Global, name: Option<&str>, text: &str) -> Result<Stream, Fail> {
    let name = match name {
        Some(name) => Some(Name::new(Vec::from_slice(alloc, name.as_bytes())?)),
        None => None,
    };
    let code = code(alloc, text)?;
    Ok(Stream::Filter(Instance { name, code }))
}

/// The names of the nodes, with `!` after those in a loop, and the channels as
/// `node.port-node.port:enqueued`.
fn shown(alloc: Global, graph: &Graph) -> Result<String, AllocError> {
    let mut text = String::new(alloc);
    push_names(&mut text, graph)?;
    for channel in graph.channels() {
        push_port(&mut text, channel.source, '-')?;
        push_port(&mut text, channel.target, ':')?;
        write!(text, "{} ", channel.enqueued.len())?;
    }
    Ok(text)
}

fn push_names(text: &mut String, graph: &Graph) -> Result<(), AllocError> {
    for node in 0..graph.nodes().len() {
        text.push_str(std::str::from_utf8(graph.name(node)).unwrap_or("?"))?;
        let end = if graph.outer_loop(node).is_none() {
            " "
        } else {
            "! "
        };
        text.push_str(end)?;
    }
    Ok(())
}

fn push_port(text: &mut String, port: Port, end: char) -> Result<(), AllocError> {
    write!(text, "{}.{}{end}", port.node, port.port)
}

fn flat(rt: &impl Abort, alloc: Global, stream: Stream) -> Result<String, AllocError> {
    match flatten(alloc, &stream) {
        Ok(graph) => shown(alloc, &graph),
        Err(_) => panic!(rt; "a refusal"),
    }
}

// The items and one more. For any type, so that what is dropped where there is none is no part of
// the callers.
fn with_last<T: Drop>(items: Vec<T>, last: Result<T, Fail>) -> Result<Vec<T>, Fail> {
    let mut items = items;
    items.push(last?)?;
    Ok(items)
}

// A source, a pipeline of two, and an identity.
fn row(alloc: Global) -> Result<Stream, Fail> {
    let source = "void->int filter Source { int x; work push 1 { push(x++); } }";
    let row = with_last(Vec::new(alloc), filter(alloc, Some("Source"), source))?;
    let row = with_last(row, inner_row(alloc))?;
    Ok(Stream::Pipeline(with_last(row, Ok(Stream::Identity))?))
}

fn inner_row(alloc: Global) -> Result<Stream, Fail> {
    let teller = "int->int filter T { work pop 1 push 1 { print(1); push(pop()); } }";
    let row = with_last(Vec::new(alloc), Ok(Stream::Identity))?;
    let row = with_last(row, filter(alloc, Some("T"), teller))?;
    Ok(Stream::Pipeline(row))
}

#[test]
fn pipelines_are_rows(rt: HostRuntime) -> Result<(), Fail> {
    let alloc = rt.alloc();
    assert_eq!(rt;
        flat(&rt, alloc, row(alloc)?)?.as_str(),
        "Source Identity T Identity 0.0-1.0:0 1.0-2.0:0 2.0-3.0:0 "
    );
    let printer = "int->void filter Printer { work pop 1 { println(pop()); } }";
    let alone = filter(alloc, None, printer)?;
    assert_eq!(rt; flat(&rt, alloc, alone)?.as_str(), "filter ");
    Ok(())
}

/// A program that reads, a stream in the middle, and a writer.
fn between(alloc: Global, stream: Stream) -> Result<Stream, AllocError> {
    let mut children = Vec::new(alloc);
    children.push(Stream::FileReader(StringLiteral::new(Vec::new(alloc))))?;
    children.push(stream)?;
    children.push(Stream::FileWriter(StringLiteral::new(Vec::new(alloc))))?;
    Ok(Stream::Pipeline(children))
}

// An identity, a filter that drops its items, and an identity.
fn branches(alloc: Global) -> Result<Vec<Stream>, Fail> {
    let text = "int->void filter Drop { work pop 1 { pop(); } }";
    let branches = with_last(Vec::new(alloc), Ok(Stream::Identity))?;
    let branches = with_last(branches, filter(alloc, Some("Drop"), text))?;
    with_last(branches, Ok(Stream::Identity))
}

#[test]
fn split_joins_stand_between_their_nodes(rt: HostRuntime) -> Result<(), Fail> {
    let alloc = rt.alloc();
    let splitter = Splitter::Roundrobin(vec![in alloc; 2, 1, 1]?);
    let joiner = vec![in alloc; 2, 0, 1]?;
    let stream = Stream::SplitJoin(Some(splitter), branches(alloc)?, Some(joiner));
    assert_eq!(rt;
        flat(&rt, alloc, between(alloc, stream)?)?.as_str(),
        "FileReader split Identity Drop Identity join FileWriter \
         0.0-1.0:0 1.0-2.0:0 1.1-3.0:0 1.2-4.0:0 2.0-5.0:0 4.0-5.2:0 5.0-6.0:0 "
    );
    Ok(())
}

#[test]
fn loops_come_back_to_their_joiner(rt: HostRuntime) -> Result<(), Fail> {
    let alloc = rt.alloc();
    let sum = filter(
        alloc,
        Some("Sum"),
        "int->int filter Sum { work push 1 pop 2 { push(pop() + pop()); } }",
    )?;
    let stream = Stream::FeedbackLoop(
        vec![in alloc; 1, 1]?,
        Box::new(alloc, sum)?,
        Splitter::Duplicate(vec![in alloc; true, true]?),
        Box::new(alloc, Stream::Identity)?,
        vec![in alloc; 7, 8]?,
    );
    assert_eq!(rt;
        flat(&rt, alloc, between(alloc, stream)?)?.as_str(),
        "FileReader join! Sum! split! Identity! FileWriter \
         0.0-1.0:0 1.0-2.0:0 2.0-3.0:0 3.0-5.0:0 3.1-4.0:0 4.0-1.1:2 "
    );
    Ok(())
}
