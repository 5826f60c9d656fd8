// What is looked up once about the units of an order: in a round nothing is looked up again.

ghost use Rattle.std.specs.Prelude.{◌≡◌, ◌<◌, All, IfOk, Some, [], ◌∷◌, ◌++◌, length, slice_get};
ghost use Rattle.std.specs.Prelude.{true};
ghost use Rattle.strc_elab_graph.specs.Graphs.{NodeCode};
ghost use Rattle.strc_sched_orders.specs.Greedy.{firings_of};
ghost use Rattle.strc_sched_orders.specs.Order.{repeated};
ghost use Rattle.strc_sched_laws.specs.Wiring.{ports_at};
ghost use Rattle.strc_sched_rings.specs.Apart.{AreAllApart};
ghost use Rattle.strc_sched_rings.specs.Circuits.{circuit_view, IsReady};
ghost use Rattle.strc_sched_machine.specs.Batches.{AreBatches, FitsKind, IsKindBetween, IsBatch};
ghost use Rattle.strc_sched_machine.specs.Batches.{IsOrderOf, all_firings, batch_firings};
ghost use Rattle.strc_sched_machine.specs.Batches.{in_circuit};
ghost use Rattle.strc_sched_machine.specs.Batches.{units_of};

use crate::chains::hands_of;
use std::alloc::{AllocError, Global};
use strc_elab_graph::graph::Node;
use strc_sched_filters::identity::is_identity;
use strc_sched_orders::unit::Unit;
use strc_sched_rings::circuit::Circuit;
use strc_sched_rings::movers::ring_of;
use strc_sched_rings::units::copy_units;

/// Firings of one node in a row.
#[derive(Clone, Copy)]
pub(crate) struct Batch {
    pub(crate) node: u32,
    pub(crate) turns: u32,
    /// The ring at its first input port.
    pub(crate) input: Option<usize>,
    /// The ring at its first output port.
    pub(crate) output: Option<usize>,
    pub(crate) kind: Kind,
}

/// What is known of a node that fires in a row.
#[derive(Clone, Copy)]
pub(crate) enum Kind {
    /// It is an identity between these two rings, or a filter that does what one does.
    Identity { from: usize, to: usize },
    /// No ring is at two of its ports: so it may deal its items, or join them, many times at
    /// once.
    Dealer,
    /// It may be any node.
    Other,
}

/// Batches that fire one after another, and how many times all of them do.
#[derive(Drop)]
pub(crate) struct BatchList {
    pub(crate) turns: u32,
    pub(crate) batches: Vec<Batch>,
}

/// The units of an order, and their firings as batches.
#[derive(Drop)]
pub struct Order {
    pub(crate) units: Vec<Unit>,
    pub(crate) lists: Vec<BatchList>,
    /// Of each list which of its batches fire by hand; none where too few do.
    pub(crate) hands: Vec<Vec<bool>>,
}

impl Order {
    /// The order of these units, for a circuit: in it a node that the circuit lacks never fires.
    pub fn new(alloc: Global, circuit: &Circuit, units: Vec<Unit>) -> Result<Order, AllocError>
        requires ready { IsReady circuit.now }
        ensures order { IfOk result (IsOrderOf (circuit_view circuit.now)) }
        ensures units { IfOk result (λ order. units_of order ≡ units.items) }
    {
        let mut lists = Vec::new(alloc);
        for unit in &units {
            add_unit(alloc, circuit, &mut lists, unit)?;
        }
        let hands = hands_of(alloc, circuit, &lists)?;
        Ok(Order {
            units,
            lists,
            hands,
        })
    }
}

/// The order of a schedule's units, for a circuit.
pub fn order_of(alloc: Global, circuit: &Circuit, units: &[Unit]) -> Result<Order, AllocError>
    requires ready { IsReady circuit.now }
    ensures order { IfOk result (IsOrderOf (circuit_view circuit.now)) }
    ensures firings { IfOk result (λ order. firings_of (units_of order) ≡ firings_of units.now) }
{
    Order::new(alloc, circuit, copy_units(alloc, units)?)
}

/// The firings of one unit more: one batch where its list is one node's firings, and 32 bits count
/// them all.
fn add_unit(
    alloc: Global,
    circuit: &Circuit,
    lists: &mut Vec<BatchList>,
    unit: &Unit,
) -> Result<(), AllocError>
    requires ready { IsReady circuit.now }
    requires lists { All (AreBatches (circuit_view circuit.now)) lists.old.items }
    ensures ready { IfOk result (λ done. All (AreBatches (circuit_view circuit.now))
        lists.new.items) }
    ensures firings { IfOk result (λ done. all_firings lists.new.items
        ≡ all_firings lists.old.items ++ in_circuit (circuit_view circuit.now)
        (repeated unit.now.turns unit.now.nodes.items)) }
{
    let batches = listed(alloc, circuit, &unit.nodes)?;
    if batches.len() == 1 {
        let only = batches[0];
        if let Some(turns) = only.turns.checked_mul(unit.turns) {
            return add_batch(alloc, circuit, lists, Batch { turns, ..only });
        }
    }
    let turns = unit.turns;
    lists.push(BatchList { turns, batches })?;
    Ok(())
}

/// One batch more: of the last list, where that fires once.
fn add_batch(
    alloc: Global,
    circuit: &Circuit,
    lists: &mut Vec<BatchList>,
    batch: Batch,
) -> Result<(), AllocError>
    requires batch { IsBatch (circuit_view circuit.now) batch }
    requires lists { All (AreBatches (circuit_view circuit.now)) lists.old.items }
    ensures ready { IfOk result (λ done. All (AreBatches (circuit_view circuit.now))
        lists.new.items) }
    ensures firings { IfOk result (λ done. all_firings lists.new.items
        ≡ all_firings lists.old.items ++ repeated batch.turns (batch.node ∷ [])) }
{
    if let Some(last) = lists.pop() {
        if last.turns == 1 {
            let BatchList { turns, mut batches } = last;
            batches.push(batch)?;
            lists.push(BatchList { turns, batches })?;
            return Ok(());
        }
        lists.push(last)?;
    }
    let mut batches = Vec::new(alloc);
    batches.push(batch)?;
    lists.push(BatchList { turns: 1, batches })?;
    Ok(())
}

/// The batches of a list of nodes: of each that the circuit has, the firings in a row are one.
fn listed(alloc: Global, circuit: &Circuit, nodes: &[u32]) -> Result<Vec<Batch>, AllocError>
    requires ready { IsReady circuit.now }
    ensures ready { IfOk result (λ batches. All (IsBatch (circuit_view circuit.now))
        batches.items) }
    ensures firings { IfOk result (λ batches. batch_firings batches.items
        ≡ in_circuit (circuit_view circuit.now) nodes.now) }
{
    let mut batches = Vec::new(alloc);
    for node in nodes {
        add_node(circuit, &mut batches, *node)?;
    }
    Ok(batches)
}

/// One firing more, where the circuit has the node.
fn add_node(circuit: &Circuit, batches: &mut Vec<Batch>, node: u32) -> Result<(), AllocError>
    requires ready { IsReady circuit.now }
    requires batches { All (IsBatch (circuit_view circuit.now)) batches.old.items }
    ensures ready { IfOk result (λ done. All (IsBatch (circuit_view circuit.now))
        batches.new.items) }
    ensures firings { IfOk result (λ done. batch_firings batches.new.items
        ≡ batch_firings batches.old.items ++ in_circuit (circuit_view circuit.now) (node ∷ [])) }
{
    if (node as usize) < circuit.nodes.len() {
        add_firing(circuit, batches, node)
    } else {
        Ok(())
    }
}

/// One firing more: of the last batch, where that is of the same node and can count it.
fn add_firing(circuit: &Circuit, batches: &mut Vec<Batch>, node: u32) -> Result<(), AllocError>
    requires ready { IsReady circuit.now }
    requires node { node < length circuit.now.nodes.items }
    requires batches { All (IsBatch (circuit_view circuit.now)) batches.old.items }
    ensures ready { IfOk result (λ done. All (IsBatch (circuit_view circuit.now))
        batches.new.items) }
    ensures firings { IfOk result (λ done. batch_firings batches.new.items
        ≡ batch_firings batches.old.items ++ node ∷ []) }
{
    if let Some(last) = batches.pop() {
        if last.node == node && last.turns < u32::MAX {
            let turns = last.turns + 1;
            batches.push(Batch { turns, ..last })?;
            return Ok(());
        }
        batches.push(last)?;
    }
    batches.push(batch_at(circuit, node))?;
    Ok(())
}

/// One firing of a node.
fn batch_at(circuit: &Circuit, node: u32) -> Batch
    requires ready { IsReady circuit.now }
    requires node { node < length circuit.now.nodes.items }
    ensures batch { IsBatch (circuit_view circuit.now) result }
    ensures node { result.node ≡ node }
    ensures turns { result.turns ≡ 1 }
{
    let place = node as usize;
    Batch {
        node,
        turns: 1,
        input: ring_of(circuit.inputs.at(place), 0),
        output: ring_of(circuit.outputs.at(place), 0),
        kind: kind_at(circuit, place),
    }
}

/// What kind of node it is.
fn kind_at(circuit: &Circuit, node: usize) -> Kind
    requires inputs { length circuit.now.inputs ≡ length circuit.now.nodes.items }
    requires outputs { length circuit.now.outputs ≡ length circuit.now.nodes.items }
    requires apart { circuit.now.apart ≡ true → AreAllApart circuit.now.inputs circuit.now.outputs }
    requires node { node < length circuit.now.nodes.items }
    ensures { (code : NodeCode) → slice_get (circuit_view circuit.now).codes node ≡ Some code
        → FitsKind code (ports_at circuit.now.inputs node) (ports_at circuit.now.outputs node)
        result }
{
    match &circuit.nodes[node] {
        Node::Identity => kind_between(
            ring_of(circuit.inputs.at(node), 0),
            ring_of(circuit.outputs.at(node), 0),
        ),
        Node::Filter(instance) => {
            if is_identity(&instance.code) {
                kind_between(
                    ring_of(circuit.inputs.at(node), 0),
                    ring_of(circuit.outputs.at(node), 0),
                )
            } else {
                Kind::Other
            }
        }
        Node::Splitter(_) | Node::Joiner(_) => {
            if circuit.apart {
                Kind::Dealer
            } else {
                Kind::Other
            }
        }
        _ => Kind::Other,
    }
}

/// The kind of an identity, by its rings.
fn kind_between(input: Option<usize>, output: Option<usize>) -> Kind
    ensures { IsKindBetween input output result }
{
    match (input, output) {
        (Some(from), Some(to)) if from != to => Kind::Identity { from, to },
        _ => Kind::Other,
    }
}
