// How many items the ends of a channel move.

ghost use Rattle.std.specs.Prelude.{◌≡◌};
ghost use Rattle.strc_cli_source.specs.Rates.{channel_rates};

use strc_elab_graph::graph::{Channel, Graph};
use strc_elab_graph::rates::{pops_at, pushes_at};

/// A firing that isn't the first one, so that it is by `work`.
const LATER: u64 = 1;

/// What a channel's source pushes and what its target pops.
pub fn rates_of(graph: &Graph, channel: &Channel) -> Option<(u128, u128)>
    ensures { result ≡ channel_rates graph.now channel.now }
{
    let source = graph.nodes().get(channel.source.node as usize)?;
    let target = graph.nodes().get(channel.target.node as usize)?;
    Some((
        pushes_at(source, LATER, channel.source.port as usize),
        pops_at(target, LATER, channel.target.port as usize),
    ))
}
