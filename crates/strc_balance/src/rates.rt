// The balance equations of a graph, by the rates of `work`.

ghost use Rattle.std.specs.Prelude.{◌≡◌, ◌<◌, ◌^◌, IfOk, All, map};
ghost use Rattle.strc_elab_graph.specs.NodeView.{node_view, channel_view};
ghost use Rattle.strc_elab_graph.specs.Graphs.{JoinsPorts};
ghost use Rattle.strc_balance.specs.Rates as spec;
ghost use Rattle.strc_balance.specs.Frontiers.{IsBounded};

use crate::equation::Equation;
use std::alloc::{AllocError, Global};
use strc_elab_graph::graph::{Channel, Node};
use strc_elab_graph::rates::{fires_by_rounds, pops_at, pushes_at};

/// The balance equation of each channel.
pub(crate) fn equations_of(
    alloc: Global,
    nodes: &[Node],
    channels: &[Channel],
) -> Result<Vec<Equation>, AllocError>
    requires { All (JoinsPorts (map node_view nodes.now)) (map channel_view channels.now) }
    ensures equations { IfOk result (λ equations. equations.items
        ≡ map (spec.equation_of (map node_view nodes.now)) (map channel_view channels.now)) }
    ensures bounds { IfOk result (λ equations. All IsBounded equations.items) }
{
    let mut equations = Vec::with_capacity(alloc, channels.len())?;
    for channel in channels {
        equations.push(equation_of(nodes, channel))?;
    }
    Ok(equations)
}

/// The balance equation of a channel.
fn equation_of(nodes: &[Node], channel: &Channel) -> Equation
    requires { JoinsPorts (map node_view nodes.now) (channel_view channel.now) }
    ensures equation { result ≡ spec.equation_of (map node_view nodes.now)
        (channel_view channel.now) }
    ensures bounds { IsBounded result }
{
    let source = channel.source;
    let target = channel.target;
    Equation {
        source: source.node as usize,
        push: pushes_by_work(&nodes[source.node as usize], source.port as usize),
        target: target.node as usize,
        pop: pops_by_work(&nodes[target.node as usize], target.port as usize),
    }
}

/// How many items a firing by `work` takes at an input port.
fn pops_by_work(node: &Node, port: usize) -> u128
    ensures pops { result ≡ spec.pops_by_work (node_view node.now) port }
    ensures bound { result < 2 ^ 96 }
{
    if fires_by_rounds(node) {
        return 0;
    }
    pops_at(node, 1, port)
}

/// How many items a firing by `work` gives at an output port.
fn pushes_by_work(node: &Node, port: usize) -> u128
    ensures pushes { result ≡ spec.pushes_by_work (node_view node.now) port }
    ensures bound { result < 2 ^ 96 }
{
    if fires_by_rounds(node) {
        return 0;
    }
    pushes_at(node, 1, port)
}
