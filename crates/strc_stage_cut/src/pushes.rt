// How many items channels carry in a round.

ghost use Rattle.std.specs.Prelude.{◌≡◌, ◌*◌, ◌<◌, ◌^◌, if◌then◌else◌};
ghost use Rattle.strc_balance.specs.Balance.{count_at};
ghost use Rattle.strc_startup.specs.Rates.{push_at};
ghost use Rattle.strc_elab_graph.specs.NodeView.{node_view};
ghost use Rattle.std.specs.Prelude.{map};

use strc_balance::counts::count_of;
use strc_elab_graph::graph::{Node, Port};
use strc_elab_graph::rates::pushes_at;

/// How many items a channel from this port carries in a round from stage to stage, where nodes fire
/// so often and it crosses from one to another or doesn't.
pub fn items_between(nodes: &[Node], counts: &[u32], crosses: bool, port: Port) -> u32
    requires few { (if crosses then
        count_at counts.now port.node * push_at (map node_view nodes.now) 1 port else 0) < 2 ^ 32 }
    ensures { result ≡ (if crosses then
        count_at counts.now port.node * push_at (map node_view nodes.now) 1 port else 0) }
{
    if crosses {
        round_pushes(nodes, counts, port)
    } else {
        0
    }
}

/// How many items come from a port in a round, where nodes fire so often.
fn round_pushes(nodes: &[Node], counts: &[u32], port: Port) -> u32
    requires few { count_at counts.now port.node * push_at (map node_view nodes.now) 1 port
        < 2 ^ 32 }
    ensures { result ≡ count_at counts.now port.node * push_at (map node_view nodes.now) 1 port }
{
    let count = count_of(counts, port.node as usize);
    (u128::from(count) * push_of(nodes, port)) as u32
}

/// How many items a firing after the first pushes at a port.
fn push_of(nodes: &[Node], port: Port) -> u128
    ensures { result ≡ push_at (map node_view nodes.now) 1 port }
{
    let node = port.node as usize;
    if node < nodes.len() {
        pushes_at(&nodes[node], 1, port.port as usize)
    } else {
        0
    }
}
