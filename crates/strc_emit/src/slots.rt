// The slots of a program's filters, and all its items.

ghost use Rattle.std.specs.Prelude.{◌≡◌, ◌<◌, ◌-◌, ◌+◌, ◌^◌, min, length};
ghost use Rattle.strc_emit.specs.Slots as spec;

use strc_elab_graph::graph::Node;
use strc_emit_moves::arrays::total_room;
use strc_emit_moves::places::Network;

/// How many items a program has, in the arrays of its channels and in the slots of its filters, or
/// 2^64 - 1 where that is less.
pub(crate) fn total_items(network: &Network<'_>) -> u64
    ensures { result ≡ min (spec.total_items network.now) (2 ^ 64 - 1) }
{
    total_room(network).saturating_add(total_slots(network.nodes))
}

// How many slots the filters among nodes have, or 2^64 - 1 where that is less.
fn total_slots(nodes: &[Node]) -> u64
    ensures { result ≡ min (spec.total_slots nodes.now) (2 ^ 64 - 1) }
{
    let mut total: u64 = 0;
    for number in 0..nodes.len() {
        total = with_slots(total, slots_at(nodes, number));
    }
    total
}

// The sum, or 2^64 - 1 where that is less.
fn with_slots(total: u64, slots: usize) -> u64
    ensures { result ≡ min (total + slots) (2 ^ 64 - 1) }
{
    total.saturating_add(slots as u64)
}

// How many slots the node of a number has.
fn slots_at(nodes: &[Node], number: usize) -> usize
    requires { number < length nodes.now }
    ensures { result ≡ spec.slots_at nodes.now number }
{
    slots_of(&nodes[number])
}

// How many slots a node has.
fn slots_of(node: &Node) -> usize
    ensures { result ≡ spec.node_slots node.now }
{
    match node {
        Node::Filter(instance) => instance.code.slot_count(),
        _ => 0,
    }
}
