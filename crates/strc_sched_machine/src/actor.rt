// What each node of a graph keeps between firings.

ghost use Rattle.std.specs.Prelude.{◌≡◌, ◌≤◌, IfOk, length, map};
ghost use Rattle.strc_elab_graph.specs.Meaning.{copied_fields, node_fields};
ghost use Rattle.strc_elab_graph.specs.NodeView.{copied_view, node_view};
ghost use Rattle.strc_sched_machine.specs.Actors.{AreActors, AreStartable, AreClosed, IsActorOf};
ghost use Rattle.strc_sched_machine.specs.Actors.{CanStartCopy, CanStartNode, IsClosedCopy};
ghost use Rattle.strc_sched_machine.specs.Actors.{IsClosedNode};
ghost use Rattle.strc_sched_machine.specs.Actors.{IsCopyActor, fields_of};

use crate::filter::{FilterActor, start_filter};
use crate::lanes::may_fire_in_lanes;
use std::alloc::Global;
use strc_elab_graph::graph::{Copied, Node};
use strc_lex_names::memory::NoMemory;
use strc_sched_rings::circuit::Circuit;
use strc_sched_rings::ring::Ring;

/// What a node keeps between firings.
#[derive(Drop)]
pub(crate) enum Actor {
    Filter(FilterActor),
    /// A node of another kind keeps nothing.
    Passive,
}

/// The nodes of a graph before their first firings, with room for firings in lanes where the rings
/// at a node's ports have room for so many.
pub(crate) fn start_actors(
    alloc: Global,
    nodes: &[Node],
    circuit: &Circuit,
    rings: &[Ring],
) -> Result<Vec<Actor>, NoMemory>
    requires inputs { length nodes.now ≤ length circuit.now.inputs }
    requires outputs { length nodes.now ≤ length circuit.now.outputs }
    requires starts { AreStartable (map node_view nodes.now) }
    ensures actors { IfOk result (λ actors. AreActors (map node_view nodes.now) actors.items) }
    ensures fields { IfOk result (λ actors. map fields_of actors.items
        ≡ map node_fields (map node_view nodes.now)) }
    ensures known { IfOk result (λ actors. AreClosed (map node_view nodes.now)) }
{
    let mut actors = Vec::with_capacity(alloc, nodes.len())?;
    for node in nodes {
        let in_lanes = may_fire_in_lanes(circuit, rings, node, actors.len());
        actors.push(start_actor(alloc, node, in_lanes)?)?;
    }
    Ok(actors)
}

/// A node before its first firing.
fn start_actor(alloc: Global, node: &Node, in_lanes: bool) -> Result<Actor, NoMemory>
    requires starts { CanStartNode (node_view node.now) }
    ensures actor { IfOk result (IsActorOf (node_view node.now)) }
    ensures fields { IfOk result (λ actor. fields_of actor ≡ node_fields (node_view node.now)) }
    ensures known { IfOk result (λ actor. IsClosedNode (node_view node.now)) }
{
    match node {
        Node::Filter(instance) => {
            let actor = start_filter(alloc, &instance.code, in_lanes)?;
            Ok(Actor::Filter(actor))
        }
        Node::Copy(copied, _) => start_copy(alloc, copied, in_lanes),
        Node::Identity
        | Node::FileReader(_)
        | Node::FileWriter(_)
        | Node::Splitter(_)
        | Node::Joiner(_)
        | Node::Scatter(_)
        | Node::Gather(_) => Ok(Actor::Passive),
    }
}

/// A copy starts as what it copies.
fn start_copy(alloc: Global, copied: &Copied, in_lanes: bool) -> Result<Actor, NoMemory>
    requires starts { CanStartCopy (copied_view copied.now) }
    ensures actor { IfOk result (IsCopyActor (copied_view copied.now)) }
    ensures fields { IfOk result (λ actor. fields_of actor
        ≡ copied_fields (copied_view copied.now)) }
    ensures known { IfOk result (λ actor. IsClosedCopy (copied_view copied.now)) }
{
    match copied {
        Copied::Filter(instance) => {
            let actor = start_filter(alloc, &instance.code, in_lanes)?;
            Ok(Actor::Filter(actor))
        }
        Copied::Identity => Ok(Actor::Passive),
    }
}
