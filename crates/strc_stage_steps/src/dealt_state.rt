// The state after start-up, dealt out to the nodes and channels after fission.

ghost use Rattle.std.specs.Prelude.{◌≡◌, ℕ, ◌<◌, ◌≤◌, IfOk, length, map};
ghost use Rattle.strc_sched_laws.specs.Circuits.{IsCircuit};
ghost use Rattle.strc_sched_laws.specs.Machine.{CircuitView};
ghost use Rattle.strc_sched_laws.specs.Rings.{items_at};
ghost use Rattle.strc_sched_rings.specs.Circuits.{circuit_view};
ghost use Rattle.strc_elab_graph.specs.NodeView.{channel_view, graph_view, node_view};
ghost use Rattle.strc_sched_machine.specs.Actors.{AreStartable};
ghost use Rattle.strc_sched_machine.specs.Running.{IsMachine, machine_view};
ghost use Rattle.strc_stage_steps.specs.Dealt.{HaveRoom, IsDealt};
ghost use Rattle.strc_stage_steps.specs.Handing as handing;
ghost use Rattle.strc_stage_steps.specs.Handing.{HasFilled, HasHanded, HavePlaces, items_before};
ghost use Rattle.strc_stage_steps.specs.Handing.{with_items};
ghost use Rattle.strc_stage_steps.specs.Origins as spec;
ghost use Rattle.strc_stage_steps.specs.Origins.{AreOrigins, IsWhole};
ghost use Rattle.strc_stage_plan.specs.Named.{old_node};

use std::alloc::Global;
use strc_elab_graph::graph::{Channel, Graph, Node};
use strc_elab_graph::rates::fires_by_rounds;
use strc_fiss::split::Origin;
use strc_lex_names::memory::NoMemory;
use strc_sched_machine::machine::Machine;
use strc_sched_rings::circuit::Circuit;
use strc_sched_rings::movers::ring_of;

/// A machine for a graph after fission, to which the state of the machine of the graph before it is
/// dealt out: nodes that aren't split keep what they had, and parts of the others start. What waits
/// at a node waits at its first part, where there is room for it. `old` is the circuit of the graph
/// before fission, and each ring gets the room that is given for it.
pub fn deal_out(
    alloc: Global,
    before: Machine,
    old: &Circuit,
    graph: &Graph,
    circuit: &Circuit,
    origins: &[Origin],
    sizes: &[u32],
) -> Result<Machine, NoMemory>
    requires before { IsMachine (circuit_view old.now) before }
    requires circuit { IsCircuit (graph_view graph.now) (circuit_view circuit.now) }
    requires starts { AreStartable (graph_view graph.now).nodes }
    requires origins { AreOrigins (circuit_view old.now).codes (graph_view graph.now).nodes
        origins.now }
    ensures machine { IfOk result (IsMachine (circuit_view circuit.now)) }
    ensures dealt { HaveRoom (circuit_view old.now) (graph_view graph.now) origins.now sizes.now
        (machine_view before)
        → IfOk result (λ after. IsDealt (circuit_view old.now) (graph_view graph.now) origins.now
        sizes.now (machine_view before) (machine_view after)) }
    ensures rings { IfOk result (λ after. length (machine_view after).rings
        ≡ length graph.now.channels) }
{
    let mut left = before;
    let mut after = Machine::new(alloc, graph, circuit, sizes)?;
    hand_nodes(&mut after, &mut left, graph.nodes(), origins);
    hand_channels(&mut after, &left, old, graph, origins);
    Ok(after)
}

/// Each node that isn't split gets what its origin had.
fn hand_nodes(after: &mut Machine, left: &mut Machine, nodes: &[Node], origins: &[Origin])
    requires places { HavePlaces (length nodes.now) origins.now (machine_view left.old)
        (machine_view after.old) }
    requires each { length origins.now ≡ length nodes.now }
    requires apart { (one other : ℕ) → IsWhole (map node_view nodes.now) one
        → IsWhole (map node_view nodes.now) other
        → old_node origins.now one ≡ old_node origins.now other → one ≡ other }
    ensures handed { HasHanded (map node_view nodes.now) origins.now (length nodes.now)
        (machine_view left.old) (machine_view after.old) (machine_view left.new)
        (machine_view after.new) }
    ensures machine { (old circuit : CircuitView) → circuit.codes ≡ map node_view nodes.now
        → AreOrigins old.codes circuit.codes origins.now
        → IsMachine old left.old → IsMachine circuit after.old → IsMachine circuit after.new }
{
    for number in 0..nodes.len() {
        if !fires_by_rounds(&nodes[number]) {
            after.swap_kept(number, left, origins[number].node as usize);
        }
    }
}

/// Each channel that ends at a node's first part gets what waited there.
fn hand_channels(
    after: &mut Machine,
    left: &Machine,
    old: &Circuit,
    graph: &Graph,
    origins: &[Origin],
)
    requires rings { length (machine_view after.old).rings ≡ length graph.now.channels }
    requires each { length origins.now ≡ length graph.now.nodes }
    requires within { (number : ℕ) → number < length graph.now.nodes
        → old_node origins.now number < length (circuit_view old.now).inputs }
    ensures filled { HasFilled (items_before (circuit_view old.now) (graph_view graph.now).nodes
        origins.now (machine_view left.now)) (graph_view graph.now).channels
        (length graph.now.channels) (machine_view after.old) (machine_view after.new) }
    ensures machine { (circuit : CircuitView) → IsMachine circuit after.old
        → IsMachine circuit after.new }
{
    let channels = graph.channels();
    for number in 0..channels.len() {
        let ring = ring_before(&channels[number], old, graph.nodes(), origins);
        hand_items(after, number, left, ring);
    }
}

/// The ring that a channel had before fission; one between parts had none.
fn ring_before(
    channel: &Channel,
    old: &Circuit,
    nodes: &[Node],
    origins: &[Origin],
) -> Option<usize>
    requires target { channel.now.target.node < length nodes.now }
    requires each { length origins.now ≡ length nodes.now }
    requires within { old_node origins.now channel.now.target.node
        < length (circuit_view old.now).inputs }
    ensures { result ≡ handing.ring_before (circuit_view old.now) (map node_view nodes.now)
        origins.now (channel_view channel.now) }
{
    let target = channel.target;
    let number = target.node as usize;
    if is_inside(&nodes[number]) {
        return None;
    }
    let node = origins[number].node as usize;
    ring_of(old.inputs.at(node), target.port as usize)
}

/// A channel gets the items that are on a ring, and no others.
fn hand_items(after: &mut Machine, number: usize, left: &Machine, ring: Option<usize>)
    requires { number < length (machine_view after.old).rings }
    ensures items { machine_view after.new ≡ with_items number
        (items_at (machine_view left.now).rings ring) (machine_view after.old) }
    ensures machine { (circuit : CircuitView) → IsMachine circuit after.old
        → IsMachine circuit after.new }
{
    after.clear_ring(number);
    if let Some(ring) = ring {
        let (front, back) = left.items(ring);
        after.enter(number, front);
        after.enter(number, back);
    }
}

/// Whether only channels between the parts of one node end at a node.
fn is_inside(node: &Node) -> bool
    ensures { result ≡ spec.is_inside (node_view node.now) }
{
    match node {
        Node::Copy(_, _) | Node::Gather(_) => true,
        Node::Filter(_)
        | Node::Identity
        | Node::FileReader(_)
        | Node::FileWriter(_)
        | Node::Splitter(_)
        | Node::Joiner(_)
        | Node::Scatter(_) => false,
    }
}
