// The counts of small graphs, and which refusal there is.

use crate::small_graphs::{answer_of, ends_of, graph_of, nodes_of, row_of};
use std::test::Fail;
use strc_elab_graph::graph::Node;

/// A row a line: nodes, channels and the answer.
const CASES: &str = "\
reader join:1:1 split:1:2 writer|0.0-1.0 1.0-2.0 2.0-3.0=3 3 2 2
# 1,000,000 is the limit.
reader join:1:999 join:1:999 writer|0.0-1.0 1.0-2.0 2.0-3.0=1 1 1000 1000000
reader join:1:100 join:1:9900 writer \
    |0.0-1.0 1.0-2.0 2.0-3.0=a node would fire too often in a round
# The count passes the limit and falls again.
reader join:1:1000 join:1:999 identity split:1:1000999 \
    |0.0-1.0 1.0-2.0 2.0-3.0 3.0-4.0=a node would fire too often in a round
# 2,000,000 items, of which a firing takes 2,000.
reader join:1:999 join:1:1999 split:1:1999 writer \
    |0.0-1.0 1.0-2.0 2.0-3.0 3.0-4.0=1 1 1000 1000 1000
reader split:2:1 identity identity join:2:1 writer \
    |0.0-1.0 1.0-2.0 1.1-3.0 2.0-4.0 3.0-4.1 4.0-5.0=3 1 2 1 1 3
reader duplicate identity join:1:1 join:1:1 writer \
    |0.0-1.0 1.0-2.0 1.1-3.0 2.0-4.0 3.0-4.1 4.0-5.0=no counts balance channel 4
# Channel 4 isn't balanced either.
reader duplicate identity join:1:1 join:1:1000000 writer \
    |0.0-1.0 1.0-2.0 1.1-3.0 2.0-4.0 3.0-4.1 4.0-5.0=a node would fire too often in a round
reader join:1:1 identity split:1:1 identity writer \
    |0.0-1.0 1.0-2.0 2.0-3.0 3.0-5.0 3.1-4.0 4.0-1.1=1 1 2 1 1 1
reader join:1:2 identity split:1:1 identity writer \
    |0.0-1.0 1.0-2.0 2.0-3.0 3.0-5.0 3.1-4.0 4.0-1.1=no counts balance channel 5
# Graphs that no text means: no nodes, and one without channels.
|=
identity|=1
# Two channels at one port, which agree, and which don't.
reader writer|0.0-1.0 0.0-1.0=1 1
reader join:1:1 writer|0.0-1.0 0.0-2.0 1.0-2.0=no counts balance channel 2
# A channel from a node to itself.
identity|0.0-0.0=1
join:1:1|0.0-0.0=no counts balance channel 0
# Nodes that aren't connected, a port without items, and a node that fires by rounds.
reader writer identity|0.0-1.0=outside the condition
reader join:0:1|0.0-1.0=outside the condition
reader gather|0.0-1.0=outside the condition
";

#[test]
fn small_graphs(rt: HostRuntime) -> Result<(), Fail> {
    let alloc = rt.alloc();
    for line in CASES.lines() {
        let Some((graph, expected)) = row_of(line)? else {
            continue;
        };
        let (nodes, ends) = graph.split_once("|").ok_or("no channels")?;
        let (nodes, ends) = (nodes_of(alloc, nodes)?, ends_of(alloc, ends)?);
        let graph = graph_of(&rt, alloc, nodes, &ends, 0)?;
        assert_eq!(rt;
            answer_of(alloc, &graph)?.as_str().trim_end(),
            expected,
            "{line}"
        );
    }
    Ok(())
}

/// As many nodes as a program may have, in a row, with their channels from the last to the first.
#[test]
fn many_nodes(rt: HostRuntime) -> Result<(), Fail> {
    let alloc = rt.alloc();
    let mut nodes = Vec::new(alloc);
    let mut ends = Vec::new(alloc);
    for node in 0..4095u32 {
        nodes.push(Node::Identity)?;
        ends.push((4094 - node, 0, 4095 - node, 0))?;
    }
    nodes.push(Node::Identity)?;
    let graph = graph_of(&rt, alloc, nodes, &ends, 0)?;
    let answer = answer_of(alloc, &graph)?;
    assert_eq!(rt; answer.len(), 2 * 4096);
    assert!(rt; answer.as_str().starts_with("1 1 1 "));
    Ok(())
}
