// Firings of a node in a row that pass items on, at once.

ghost use Rattle.std.specs.Prelude.{◌≡◌, ◌≢◌, ◌<◌, ◌≤◌, Some, length, true, false};
ghost use Rattle.strc_sched_laws.specs.Rings.{items_at, moved};
ghost use Rattle.strc_sched_laws.specs.Wiring.{ports_at};
ghost use Rattle.strc_sched_rings.specs.Apart.{AreApart};
ghost use Rattle.strc_sched_machine.specs.Blocks.{HasPassed};
ghost use Rattle.strc_sched_rings.specs.Circuits.{circuit_view};
ghost use Rattle.strc_sched_machine.specs.Running.{HoldRings};
ghost use Rattle.strc_sched_machine.specs.Batches.{IsBatch};

use crate::batches::{Batch, Kind};
use strc_elab_graph::graph::{Node, Splitter};
use strc_sched_rings::circuit::Circuit;
use strc_sched_rings::item_moves::move_across;
use strc_sched_rings::ring::Ring;
use strc_sched_rings::weighted_turns::{deal_turns, join_turns};

/// All firings of a batch at once, where its node passes items on and its rings hold them all.
/// Whether it did; if not, it leaves all as it was.
#[inline]
pub(crate) fn pass_at_once(
    circuit: &Circuit,
    batch: &Batch,
    rings: &mut [Ring],
    items: &mut [i32],
) -> bool
    requires batch { IsBatch (circuit_view circuit.now) batch.now }
    requires inputs { HoldRings (length rings.old) circuit.now.inputs }
    requires outputs { HoldRings (length rings.old) circuit.now.outputs }
    requires input_nodes { length circuit.now.inputs ≡ length circuit.now.nodes.items }
    requires output_nodes { length circuit.now.outputs ≡ length circuit.now.nodes.items }
    ensures rings { length rings.new ≡ length rings.old }
    ensures passed { HasPassed (circuit_view circuit.now) batch.now.node batch.now.turns result
        rings.old rings.new }
{
    match batch.kind {
        Kind::Identity { from, to } => pass_between(rings, from, to, batch.turns as usize),
        Kind::Dealer => deal_at_once(circuit, batch, rings, items),
        Kind::Other => false,
    }
}

/// The same for what does what an identity does, between two rings.
fn pass_between(rings: &mut [Ring], from: usize, to: usize, count: usize) -> bool
    requires from { from < length rings.old }
    requires to { to < length rings.old }
    requires apart { from ≢ to }
    ensures rings { length rings.new ≡ length rings.old }
    ensures all { result ≡ true → (count ≤ length (items_at rings.old (Some from)))
        × (rings.new ≡ moved (Some from) (Some to) count rings.old) }
    ensures none { result ≡ false → rings.new ≡ rings.old }
{
    if rings[from].len() < count {
        return false;
    }
    move_across(rings, from, to, count);
    true
}

/// The same for a splitter or a joiner.
fn deal_at_once(circuit: &Circuit, batch: &Batch, rings: &mut [Ring], items: &mut [i32]) -> bool
    requires batch { IsBatch (circuit_view circuit.now) batch.now }
    requires apart { AreApart (ports_at circuit.now.inputs batch.now.node)
        (ports_at circuit.now.outputs batch.now.node) }
    requires inputs { HoldRings (length rings.old) circuit.now.inputs }
    requires outputs { HoldRings (length rings.old) circuit.now.outputs }
    requires input_nodes { length circuit.now.inputs ≡ length circuit.now.nodes.items }
    requires output_nodes { length circuit.now.outputs ≡ length circuit.now.nodes.items }
    ensures rings { length rings.new ≡ length rings.old }
    ensures passed { HasPassed (circuit_view circuit.now) batch.now.node batch.now.turns result
        rings.old rings.new }
{
    let node = batch.node as usize;
    let inputs = circuit.inputs.at(node);
    let outputs = circuit.outputs.at(node);
    let turns = batch.turns as usize;
    match &circuit.nodes[node] {
        Node::Splitter(splitter) => match splitter {
            Splitter::Roundrobin(weights) => {
                deal_turns(rings, weights, turns, inputs, outputs, items)
            }
            Splitter::Duplicate(_) => false,
        },
        Node::Joiner(weights) => join_turns(rings, weights, turns, inputs, outputs),
        _ => false,
    }
}
