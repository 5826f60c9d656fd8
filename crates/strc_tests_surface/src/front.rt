// From a text to its flat graph.

use crate::programs::{MOVING_SUMS, text_of};
use std::alloc::Global;
use std::test::Fail;
use strc_elab::condition::is_graph;
use strc_elab::elaborate::elaborate;
use strc_elab::error::{ElabError, ElabErrorKind};
use strc_elab::flatten::flatten;
use strc_elab::graph::{Channel, Graph, Node, Port};
use strc_elab::stream::Stream;
use strc_lex::error::LexError;
use strc_lex::lexer::lex;
use strc_lex::token::{Span, Token, TokenKind};
use strc_parse::tree::Program;
use strc_parse::{ParseError, parse};

/// The tree of a text.
pub(crate) fn program_of(alloc: Global, text: &str) -> Result<Program, Fail> {
    let tokens = lex(alloc, text.as_bytes())?;
    Ok(parse(alloc, &tokens)?)
}

/// The flat graph of a text.
pub(crate) fn graph_of(alloc: Global, text: &str) -> Result<Graph, Fail> {
    let program = program_of(alloc, text)?;
    let stream: Option<Stream> = elaborate(alloc, &program, None).ok();
    let graph: Option<Graph> = flatten(alloc, &stream.ok_or("no stream")?).ok();
    Ok(graph.ok_or("no graph")?)
}

#[test]
fn tokens_are_slices_of_the_text(rt: HostRuntime) -> Result<(), Fail> {
    let tokens: Vec<Token> = lex(rt.alloc(), b"x +=\n1")?;
    let spans = [(0, 1), (2, 4), (5, 6)];
    assert_eq!(rt; tokens.len(), spans.len());
    for (token, (start, end)) in tokens.iter().zip(spans.iter()) {
        let span: Span = token.span;
        assert_eq!(rt; (span.start, span.end), (*start, *end));
    }
    assert!(rt; matches!(tokens[2].kind, TokenKind::Number(1)));
    assert!(rt; matches!(lex(rt.alloc(), b"@"), Err(LexError::Lex { at: 0 })));
    Ok(())
}

#[test]
fn a_tree_has_the_declarations(rt: HostRuntime) -> Result<(), Fail> {
    let alloc = rt.alloc();
    let text = text_of(alloc, MOVING_SUMS)?;
    let program = program_of(alloc, &text)?;
    assert_eq!(rt; program.declarations.len(), 8);
    let tokens = lex(alloc, b"float->float filter F { }")?;
    let refused = matches!(parse(alloc, &tokens), Err(ParseError::Parse { token: 0 }));
    assert!(rt; refused);
    Ok(())
}

#[test]
fn a_stream_becomes_a_graph(rt: HostRuntime) -> Result<(), Fail> {
    let alloc = rt.alloc();
    let text = text_of(alloc, MOVING_SUMS)?;
    let graph = graph_of(alloc, &text)?;
    assert_eq!(rt; graph.nodes().len(), 3);
    assert_eq!(rt; graph.name(1), b"MovSum".as_slice());
    assert!(rt; graph.outer_loop(1).is_none());
    let channels: &[Channel] = graph.channels();
    assert_eq!(rt; channels.len(), 2);
    assert_eq!(rt; (channels[1].source.node, channels[1].target.node), (1, 2));
    assert!(rt; channels[1].enqueued.is_empty());
    Ok(())
}

#[test]
fn a_text_without_a_main_stream_is_refused(rt: HostRuntime) -> Result<(), Fail> {
    let alloc = rt.alloc();
    let program = program_of(alloc, "")?;
    let error: Option<ElabError> = elaborate(alloc, &program, None).err();
    let error = error.ok_or("a stream")?;
    assert!(rt; matches!(error.kind(), ElabErrorKind::NoMain));
    Ok(())
}

#[test]
fn a_graph_is_made_of_its_parts(rt: HostRuntime) -> Result<(), Fail> {
    let alloc = rt.alloc();
    let mut nodes = Vec::new(alloc);
    nodes.push(Node::Identity)?;
    let mut channels = Vec::new(alloc);
    channels.push(Channel {
        source: Port { node: 0, port: 0 },
        target: Port { node: 0, port: 0 },
        enqueued: Vec::from_elem(alloc, 7, 1)?,
    })?;
    let loops = Vec::from_elem(alloc, Some(0), 1)?;
    let joined = is_graph(&nodes, &channels, &loops);
    assert!(rt; joined);
    let graph = Graph::new(nodes, channels, loops);
    assert_eq!(rt; graph.outer_loop(0), Some(0));
    assert_eq!(rt; graph.channels()[0].enqueued.as_slice(), [7].as_slice());
    Ok(())
}
