// Feedback loops with a prework in their body, and which refusal there is.

use crate::schedules::answer_of;
use crate::small_graphs::Kind::{Identity, Join, Reader, Split, Writer};
use crate::small_graphs::{ends_of, graph_of, node_of};
use std::alloc::Global;
use std::process::Abort;
use std::test::Fail;
use strc_elab_graph::graph::Node;
use strc_elab_graph::instance::Instance;
use strc_lex::lexer::lex;
use strc_parse::parse;
use strc_parse_tree::tree::StreamTree;
use strc_work::lowering::lower;
use strc_work_meaning::constants::Constants;

/// A source, a loop's joiner, body, splitter and loop, and a sink.
const LOOP: &str = "0.0-1.0 1.0-2.0 2.0-3.0 3.0-5.0 3.1-4.0 4.0-1.1";

/// It hands items on, and its first firing takes one and gives two.
const TAKES: &str = "int->int filter Body {
    prework push 2 pop 1 { push(0); push(pop()); }
    work push 1 pop 1 { push(pop()); }
}";

/// It hands items on, and its first firing takes none and gives two.
const GIVES: &str = "int->int filter Body {
    prework push 2 { push(0); push(0); }
    work push 1 pop 1 { push(pop()); }
}";

/// The only filter of a text, without a name.
pub(crate) fn instance_of(alloc: Global, text: &str) -> Result<Instance, Fail> {
    let tokens = lex(alloc, text.as_bytes())?;
    let program = parse(alloc, &tokens)?;
    let [only] = program.declarations.as_slice() else {
        return Err(Fail::from("several streams"));
    };
    let StreamTree::Filter(filter) = &only.stream else {
        return Err(Fail::from("a pipeline"));
    };
    match lower(alloc, filter, &Constants::new(alloc)) {
        Ok(code) => Ok(Instance { name: None, code }),
        Err(_) => Err(Fail::from("lower")),
    }
}

/// The answer for a loop with this body and so many items on its last channel.
fn loop_answer(rt: &impl Abort, alloc: Global, body: &str, items: usize) -> Result<String, Fail> {
    let mut nodes = Vec::new(alloc);
    nodes.push(node_of(alloc, Reader)?)?;
    nodes.push(node_of(alloc, Join(1, 1))?)?;
    nodes.push(Node::Filter(instance_of(alloc, body)?))?;
    nodes.push(node_of(alloc, Split(1, 1))?)?;
    nodes.push(node_of(alloc, Identity)?)?;
    nodes.push(node_of(alloc, Writer)?)?;
    let graph = graph_of(rt, alloc, nodes, &ends_of(alloc, LOOP)?, items)?;
    Ok(answer_of(alloc, &graph)?)
}

/// The body, the items on the last channel, and the answer.
const CASES: [(&str, usize, &str); 3] = [
    // Start-up fires each node but the sink once, and the body waits for what it gives itself.
    (
        TAKES,
        0,
        "no order of the firings before the first round exists",
    ),
    // Start-up is node 0, 1 and 2, and leaves one item before the body and two after it.
    (TAKES, 1, "1*0 1*2 1*3 1*4 1*1 1*2 1*5 : 1 2 3 1 1 1 "),
    // Start-up is the body alone.
    (GIVES, 0, "1*0 1*3 1*4 1*1 2*2 1*5 : 1 2 2 1 1 1 "),
];

#[test]
fn preworks_in_a_loop(rt: HostRuntime) -> Result<(), Fail> {
    let alloc = rt.alloc();
    for (body, items, expected) in CASES {
        assert_eq!(rt; loop_answer(&rt, alloc, body, items)?.as_str(), expected);
    }
    Ok(())
}
