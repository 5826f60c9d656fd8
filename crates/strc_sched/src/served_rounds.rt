// How many rounds an input serves.

ghost use Rattle.std.specs.Prelude.{◌≡◌};
ghost use Rattle.std.specs.List.{list_any};
ghost use Rattle.strc_elab_graph.specs.Graphs as graphs;
ghost use Rattle.strc_elab_graph.specs.NodeView.{graph_view};
ghost use Rattle.strc_sched_laws.specs.Planned.{IsPlanned};
ghost use Rattle.strc_sched.specs.Plain.{need_of};
ghost use Rattle.strc_sched.specs.Serving.{IsServed, reads_by_round};

use crate::needed_input::{firings_of, reader_of};
use strc_elab_graph::graph::Graph;
use strc_sched_orders::parts::Schedule;

/// The greatest number of rounds of a schedule that read no more than so many items, at most
/// 4,294,967,295; none where start-up alone reads more. The condition is that of `run_plain`.
pub fn rounds_served(graph: &Graph, schedule: &Schedule, got: u64) -> Option<u32>
    requires planned { IsPlanned (graph_view graph.now) schedule.now }
    ensures { IsServed (need_of (graph_view graph.now) schedule.now) got result }
{
    match reader_of(graph.nodes()) {
        Some(node) => {
            let before = firings_of(schedule.startup(), node);
            served(before, firings_of(schedule.round(), node), got)
        }
        None => Some(u32::MAX),
    }
}

/// The greatest number of rounds that an input serves, where start-up and each round read so many
/// items.
fn served(before: u64, each: u64, got: u64) -> Option<u32>
    ensures { IsServed (reads_by_round before each) got result }
{
    if got < before {
        return None;
    }
    if each == 0 {
        return Some(u32::MAX);
    }
    let rounds = (got - before) / each;
    if rounds < u64::from(u32::MAX) {
        Some(rounds as u32)
    } else {
        Some(u32::MAX)
    }
}

/// Whether a graph takes the program's input.
pub fn reads_input(graph: &Graph) -> bool
    ensures { result ≡ list_any graphs.reads_input (graph_view graph.now).nodes }
{
    reader_of(graph.nodes()).is_some()
}
