// How many items of the program's input a run reads.

ghost use Rattle.std.specs.Prelude.{◌≡◌, ◌≤◌, ◌^◌, ℕ, map};
ghost use Rattle.strc_elab_graph.specs.NodeView.{node_view};
ghost use Rattle.strc_sched_orders.specs.Greedy as spec;
ghost use Rattle.strc_sched_orders.specs.Order.{firing_count, repeated};
ghost use Rattle.strc_sched_laws.specs.Laws.{startup_order, round_order, counts_at};
ghost use Rattle.strc_sched_laws.specs.Planned.{items_read};
ghost use Rattle.strc_sched.specs.Reading.{count_of, FiresFew};

use strc_elab_graph::graph::Node;
use strc_sched_orders::parts::Schedule;
use strc_sched_orders::unit::Unit;

/// How many items start-up and so many rounds of a schedule read.
pub(crate) fn items_needed(nodes: &[Node], schedule: &Schedule, rounds: u32) -> u64
    requires startup { FiresFew (startup_order schedule.now) }
    requires round { FiresFew (round_order schedule.now) }
    ensures { result ≡ items_read (map node_view nodes.now) (counts_at schedule.now rounds) }
{
    match reader_of(nodes) {
        Some(node) => {
            let before = firings_of(schedule.startup(), node);
            before + u64::from(rounds) * firings_of(schedule.round(), node)
        }
        None => 0,
    }
}

/// The first node that reads the program's input.
pub(crate) fn reader_of(nodes: &[Node]) -> Option<usize>
    ensures { (counts : ℕ → ℕ) → items_read (map node_view nodes.now) counts
        ≡ count_of result counts }
{
    for node in 0..nodes.len() {
        if let Node::FileReader(_) = nodes[node] {
            return Some(node);
        }
    }
    None
}

/// How often a node fires in an order.
pub(crate) fn firings_of(units: &[Unit], node: usize) -> u64
    requires few { FiresFew (spec.firings_of units.now) }
    ensures firings { result ≡ firing_count (spec.firings_of units.now) node }
    ensures bound { result ≤ 2 ^ 20 }
{
    let mut firings: u64 = 0;
    for unit in units {
        firings += firings_in(unit, node);
    }
    firings
}

/// How often a node fires in a unit.
fn firings_in(unit: &Unit, node: usize) -> u64
    requires few { firing_count (repeated unit.now.turns unit.now.nodes.items) node ≤ 2 ^ 20 }
    ensures { result ≡ firing_count (repeated unit.now.turns unit.now.nodes.items) node }
{
    u64::from(unit.turns) * places_of(&unit.nodes, node)
}

/// How often a node occurs in a list.
fn places_of(nodes: &[u32], node: usize) -> u64
    ensures places { result ≡ firing_count nodes.now node }
{
    let mut places: u64 = 0;
    for other in nodes {
        if *other as usize == node {
            places += 1;
        }
    }
    places
}
