// The schedule of a graph.

ghost use Rattle.std.specs.Prelude.{◌≡◌, ℕ, ◌+◌, ◌≤◌, true, false, All, Err, IfOk, IfErr, length};
ghost use Rattle.strc_balance.specs.Balance.{count_at, IsWithinLimit};
ghost use Rattle.strc_balance.specs.Rates.{IsRated, equations_of};
ghost use Rattle.strc_elab_graph.specs.Connections.{IsConnected};
ghost use Rattle.strc_elab_graph.specs.NodeView.{graph_view};
ghost use Rattle.strc_startup.specs.Rates.{rates_of};
ghost use Rattle.strc_sched_orders.specs.Buffers.{size_limit};
ghost use Rattle.strc_sched_orders.specs.Firings.{none_fired};
ghost use Rattle.strc_sched_orders.specs.Greedy.{firings_of, IsGreedyOrder};
ghost use Rattle.strc_sched_orders.specs.Network.{size_of};
ghost use Rattle.strc_sched_orders.specs.Order.{firing_count, HasOrder};
ghost use Rattle.strc_sched_orders.specs.Peaks.{HasNodes};
ghost use Rattle.strc_sched_orders.specs.Progress.{count_bound};
ghost use Rattle.strc_sched_orders.specs.Schedules.{IsSchedule, PassesLimit, IsFitted, HasNoOrder};
ghost use Rattle.strc_sched_orders.specs.Schedules.{HasNoBuffers, HasNoSchedule};
ghost use Rattle.strc_sched_orders.specs.declared.error.ScheduleError.TheVariants as refused;

use crate::buffers::{Buffers, buffers_of};
use crate::error::ScheduleError;
use crate::greedy::greedy_order;
use crate::limit::NUMBERED_NODES;
use crate::network::Network;
use crate::parts::Schedule;
use crate::unit::Unit;
use std::alloc::Global;
use strc_balance::counts::Counts;
use strc_elab_graph::graph::Graph;
use strc_startup::rates::channel_rates;

/// The schedule of a graph whose nodes fire so often before the first round, and so often in each.
///
/// Both orders are greedy: of the nodes that have firings left and find what they look at, the one
/// with the lowest number fires as often as it can at once (Lee and Messerschmitt 1987: a class S
/// algorithm). The size of a channel's buffer is the greatest number of items there before, between
/// and after the firings of start-up and of one round, enqueued items included.
///
/// Both ends of each channel need a rate of at least 1 by `work`, and all nodes are connected by
/// channels. A node of the graph for which there is no count doesn't fire, and counts past the
/// graph's nodes are those of nodes without channels. `Deadlock` comes only where no order of the
/// firings exists in which each finds what it looks at, `BufferLimit` for the lowest channel that
/// would hold more than 16,777,216 items. `NoMemory` can come in place of any answer, and comes
/// where there are counts of more than 4,294,967,296 nodes.
pub fn schedule(
    alloc: Global,
    graph: &Graph,
    startup: &Counts,
    round: &Counts,
) -> Result<Schedule, ScheduleError>
    requires rated { All IsRated (equations_of (graph_view graph.now)) }
    requires connected { IsConnected (graph_view graph.now) }
    ensures schedule { IfOk result (IsSchedule (rates_of (graph_view graph.now))
        (count_at startup.now) (count_at round.now)) }
    ensures within { IfOk result (λ schedule. All (λ size. size ≤ size_limit) schedule.sizes) }
    ensures channels { IfOk result (λ schedule. length schedule.sizes
        ≡ length graph.now.channels) }
    ensures startup { result ≡ Err (refused.Deadlock true) → ¬ HasOrder
        (rates_of (graph_view graph.now)) none_fired (count_at startup.now) }
    ensures round { result ≡ Err (refused.Deadlock false) → ¬ HasOrder
        (rates_of (graph_view graph.now)) (count_at startup.now) (count_at round.now) }
    ensures before { result ≡ Err (refused.Deadlock false) → HasOrder
        (rates_of (graph_view graph.now)) none_fired (count_at startup.now) }
    ensures limit { (channel : ℕ) → result ≡ Err (refused.BufferLimit channel) → PassesLimit
        (rates_of (graph_view graph.now)) (count_at startup.now) (count_at round.now) channel }
{
    schedule_of(alloc, graph, startup.as_slice(), round.as_slice())
}

/// The schedule of a graph's rates and plain counts.
fn schedule_of(
    alloc: Global,
    graph: &Graph,
    startup: &[u32],
    round: &[u32],
) -> Result<Schedule, ScheduleError>
    requires rated { All IsRated (equations_of (graph_view graph.now)) }
    requires startup_within { IsWithinLimit startup.now }
    requires round_within { IsWithinLimit round.now }
    ensures schedule { IfOk result (IsSchedule (rates_of (graph_view graph.now))
        (count_at startup.now) (count_at round.now)) }
    ensures within { IfOk result (λ schedule. All (λ size. size ≤ size_limit) schedule.sizes) }
    ensures none { IfErr result (HasNoSchedule (rates_of (graph_view graph.now))
        (count_at startup.now) (count_at round.now)) }
{
    let size = graph.nodes().len().max(startup.len()).max(round.len());
    if size > NUMBERED_NODES {
        return Err(ScheduleError::NoMemory);
    }
    let channels = channel_rates(alloc, graph)?;
    let network = Network::new(alloc, channels, size)?;
    scheduled(alloc, &network, startup, round)
}

/// The schedule of a network.
fn scheduled(
    alloc: Global,
    network: &Network,
    startup: &[u32],
    round: &[u32],
) -> Result<Schedule, ScheduleError>
    requires startup { length startup.now ≤ size_of network.now }
    requires round { length round.now ≤ size_of network.now }
    requires startup_within { IsWithinLimit startup.now }
    requires round_within { IsWithinLimit round.now }
    ensures schedule { IfOk result (IsSchedule network.now.channels (count_at startup.now)
        (count_at round.now)) }
    ensures within { IfOk result (λ schedule. All (λ size. size ≤ size_limit) schedule.sizes) }
    ensures none { IfErr result (HasNoSchedule network.now.channels (count_at startup.now)
        (count_at round.now)) }
{
    let first = order_of(alloc, network, &[], startup, true)?;
    let later = order_of(alloc, network, startup, round, false)?;
    fitted(alloc, network, first, later)
}

/// The greedy order of so many firings, from these counts.
fn order_of(
    alloc: Global,
    network: &Network,
    counts: &[u32],
    firings: &[u32],
    in_startup: bool,
) -> Result<Vec<Unit>, ScheduleError>
    requires counts { length counts.now ≤ size_of network.now }
    requires firings { length firings.now ≤ size_of network.now }
    requires few { (node : ℕ) → count_at counts.now node + count_at firings.now node
        ≤ count_bound }
    ensures greedy { IfOk result (λ units. IsGreedyOrder network.now.channels
        (count_at counts.now) (count_at firings.now) units.items) }
    ensures none { IfErr result (HasNoOrder network.now.channels (count_at counts.now)
        (count_at firings.now) in_startup) }
{
    match greedy_order(alloc, network, counts, firings)? {
        Some(units) => Ok(units),
        None => Err(ScheduleError::Deadlock { in_startup }),
    }
}

/// A schedule of these orders, with their buffers.
fn fitted(
    alloc: Global,
    network: &Network,
    startup: Vec<Unit>,
    round: Vec<Unit>,
) -> Result<Schedule, ScheduleError>
    requires startup { All (HasNodes (size_of network.now)) startup.items }
    requires round { All (HasNodes (size_of network.now)) round.items }
    requires few { (node : ℕ) → firing_count (firings_of startup.items) node
        + firing_count (firings_of round.items) node ≤ count_bound }
    ensures fitted { IfOk result (IsFitted network.now.channels startup.items round.items) }
    ensures none { IfErr result (HasNoBuffers network.now.channels startup.items round.items) }
{
    let Buffers {
        greatest,
        last,
        sizes,
    } = buffers_of(alloc, network, &startup, &round)?;
    Ok(Schedule::new(startup, round, greatest, last, sizes))
}
