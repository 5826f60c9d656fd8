// Fission of a graph and its schedule.

ghost use Rattle.std.specs.Prelude.{◌≡◌, ℕ, Bool, true, suc, ◌<◌, ◌≤◌, ◌^◌, All, Err, IfOk, length};
ghost use Rattle.std.specs.Prelude.{map, slice_get};
ghost use Rattle.strc_fuse.specs.Units.{round_units};
ghost use Rattle.strc_elab_graph.specs.Graphs.{IsGraph, JoinsPorts};
ghost use Rattle.strc_elab_graph.specs.NodeView.{graph_view, node_view};
ghost use Rattle.strc_sched_orders.specs.Buffers.{size_limit};
ghost use Rattle.strc_sched_orders.specs.Firings.{none_fired};
ghost use Rattle.strc_sched_orders.specs.Greedy.{firings_of};
ghost use Rattle.strc_sched_orders.specs.Peaks.{AreRaised, HasNodes};
ghost use Rattle.strc_sched_orders.specs.Sizing.{round_rates_on, PassesOn};
ghost use Rattle.strc_sched_orders.specs.declared.error.ScheduleError.TheVariants as unsized;
ghost use Rattle.strc_fiss.specs.Fissions.{IsFission, SplitPasses};
ghost use Rattle.strc_fiss.specs.NewRounds.{DealsRound, KeepsRound};
ghost use Rattle.strc_fiss.specs.Numbers.{node_limit, up_to, share_at, is_dealt, base, each_part};
ghost use Rattle.strc_fiss.specs.OwnUnits.{round_fission};
ghost use Rattle.strc_fiss.specs.Splitting as spec;
ghost use Rattle.strc_fiss.specs.Ways.{is_alike};
ghost use Rattle.strc_fiss.specs.WireView.{wire_view};
ghost use Rattle.strc_fiss.specs.declared.error.FissError.TheVariants as refused;

use crate::channels::{Wire, channels_of, greatest_of, lasts_of, new_wires};
use crate::error::FissError;
use crate::numbers::bases_of;
use crate::own_units::dealt_counts;
use crate::parts::{new_loops, new_nodes, new_origins};
use crate::rounds::split_round;
use crate::split::Split;
use crate::unit_copies::copy_units;
use crate::ways::shares_of;
use std::alloc::Global;
use strc_balance::counts::Counts;
use strc_elab_graph::graph::{Fission, Graph};
use strc_lex_names::memory::NoMemory;
use strc_sched_orders::buffer_sizes::sizes;
use strc_sched_orders::error::ScheduleError;
use strc_sched_orders::parts::Schedule;
use strc_sched_orders::unit::Unit;

/// Splits the filters without state of a graph, identities too, among copies.
///
/// A filter is split that takes and gives items, stands in no feedback loop, and has all its
/// firings in a round in one unit of its own: so many that they can be dealt evenly to several
/// copies, at most `ways`: to as many as can be. In its place stand a scatter, the copies and a
/// gather, in this order. Its firings in a round become one of the scatter, the copies' shares, and
/// one of the gather (Gordon, Thies and Amarasinghe 2006: fission). So the new round is an order
/// where the old one is. Start-up is as before, and its order names nodes by their old numbers. The
/// time is linear in the graph and its round, but for `ways` steps at a node.
///
/// The schedule has an entry for each channel, and its round names nodes of the graph. `NodeLimit`
/// comes where there would be more than 4,096 nodes. `BufferLimit` comes where that isn't so, for
/// the lowest new channel that would hold more than 16,777,216 items. `NoMemory` can come in place
/// of any answer, and comes where `sizes` of strc_sched_orders says.
pub fn fission(
    alloc: Global,
    graph: &Graph,
    round_counts: &Counts,
    schedule: &Schedule,
    ways: u32,
) -> Result<Split, FissError>
    requires greatest { length schedule.now.greatest ≡ length graph.now.channels }
    requires last { length schedule.now.last ≡ length graph.now.channels }
    requires nodes { All (HasNodes (length graph.now.nodes)) schedule.now.round }
    ensures split { IfOk result (IsFission (round_fission (graph_view graph.now)
        (round_units schedule.now.round) round_counts.now ways) (graph_view graph.now)
        schedule.now) }
    // Where each firing of the round finds its windows in the items after start-up, so does each of
    // the new one.
    ensures order { IfOk result (KeepsRound (graph_view graph.now) schedule.now) }
    // The firings of a node that is split are dealt to its parts.
    ensures counts { IfOk result (DealsRound (round_fission (graph_view graph.now)
        (round_units schedule.now.round) round_counts.now ways) schedule.now) }
    ensures nodes { result ≡ Err refused.NodeLimit → node_limit < base
        (round_fission (graph_view graph.now) (round_units schedule.now.round) round_counts.now
        ways) (length graph.now.nodes) }
    ensures limit { (channel : ℕ) → result ≡ Err (refused.BufferLimit channel)
        → SplitPasses (round_fission (graph_view graph.now) (round_units schedule.now.round)
        round_counts.now ways) (graph_view graph.now) schedule.now channel }
{
    joins_ports(graph);
    let dealt = dealt_counts(alloc, graph, schedule.round(), round_counts)?;
    let shares = shares_of(alloc, graph, &dealt, ways)?;
    let bases = bases_of(alloc, &shares)?;
    split_by(alloc, graph, schedule, &shares, &bases)
}

/// Splits nodes whose firings are dealt so, and whose first parts have these numbers.
fn split_by(
    alloc: Global,
    graph: &Graph,
    schedule: &Schedule,
    shares: &[Fission],
    bases: &[u32],
) -> Result<Split, FissError>
    requires greatest { length schedule.now.greatest ≡ length graph.now.channels }
    requires last { length schedule.now.last ≡ length graph.now.channels }
    requires nodes { All (HasNodes (length graph.now.nodes)) schedule.now.round }
    requires shares { length shares.now ≡ length graph.now.nodes }
    requires bases { bases.now ≡ up_to (base (share_at shares.now)) (suc (length shares.now)) }
    requires within { base (share_at shares.now) (length shares.now) ≤ node_limit }
    requires alike { (node : ℕ) → is_dealt (share_at shares.now node) ≡ true
        → is_alike (slice_get (graph_view graph.now).nodes node) ≡ true }
    ensures split { IfOk result (IsFission (share_at shares.now) (graph_view graph.now)
        schedule.now) }
    ensures nodes { ¬ (result ≡ Err refused.NodeLimit) }
    ensures limit { (channel : ℕ) → result ≡ Err (refused.BufferLimit channel)
        → SplitPasses (share_at shares.now) (graph_view graph.now) schedule.now channel }
{
    joins_ports(graph);
    let wires = new_wires(alloc, graph, schedule, shares, bases)?;
    let greatest = greatest_of(alloc, &wires)?;
    let last = lasts_of(alloc, &wires)?;
    let split = graph_of(alloc, graph, shares, bases, wires)?;
    let round = split_round(alloc, schedule.round(), shares, bases)?;
    let sizes = sizes_of(alloc, &split, &greatest, &last, &round)?;
    let startup = copy_units(alloc, schedule.startup())?;
    let origins = new_origins(alloc, shares)?;
    let planned = Schedule::new(startup, round, greatest, last, sizes);
    Ok(Split::new(split, planned, origins))
}

/// A graph's channels join ports of its nodes.
fn joins_ports(graph: &Graph)
    ensures { IsGraph (graph_view graph.now) }
{
    let _channels = graph.channels();
}

/// The graph of the parts and these channels.
fn graph_of(
    alloc: Global,
    graph: &Graph,
    shares: &[Fission],
    bases: &[u32],
    wires: Vec<Wire>,
) -> Result<Graph, NoMemory>
    requires shares { length shares.now ≡ length graph.now.nodes }
    requires bases { bases.now ≡ up_to (base (share_at shares.now)) (suc (length shares.now)) }
    requires joined { All (JoinsPorts (each_part (share_at shares.now)
        (spec.new_code (share_at shares.now) (map node_view graph.now.nodes))
        (length graph.now.nodes))) (map (λ wire. wire.channel) (map wire_view wires.items)) }
    ensures nodes { IfOk result (λ split. (graph_view split).nodes
        ≡ each_part (share_at shares.now) (spec.new_code (share_at shares.now)
        (map node_view graph.now.nodes)) (length graph.now.nodes)) }
    ensures channels { IfOk result (λ split. (graph_view split).channels
        ≡ map (λ wire. wire.channel) (map wire_view wires.items)) }
    ensures loops { IfOk result (λ split. split.outer_loops ≡ each_part (share_at shares.now)
        (spec.new_loop (share_at shares.now) (length graph.now.nodes) graph.now.outer_loops)
        (length graph.now.nodes)) }
{
    let nodes = new_nodes(alloc, graph.nodes(), shares)?;
    let channels = channels_of(alloc, wires)?;
    let loops = new_loops(alloc, graph, shares, bases)?;
    Ok(Graph::new(nodes, channels, loops))
}

/// The sizes of the buffers in the round after fission.
fn sizes_of(
    alloc: Global,
    graph: &Graph,
    greatest: &[u32],
    last: &[u32],
    round: &[Unit],
) -> Result<Vec<u32>, FissError>
    requires before { length greatest.now ≡ length graph.now.channels }
    requires fill { length last.now ≡ length graph.now.channels }
    requires nodes { All (HasNodes (length graph.now.nodes)) round.now }
    ensures channels { IfOk result (λ sizes. length sizes.items ≡ length graph.now.channels) }
    ensures within { IfOk result (λ sizes. All (λ size. size ≤ size_limit) sizes.items) }
    ensures sizes { IfOk result (λ sizes. AreRaised
        (round_rates_on (graph_view graph.now) last.now) none_fired (firings_of round.now)
        greatest.now sizes.items) }
    ensures limit { (channel : ℕ) → result ≡ Err (refused.BufferLimit channel)
        → PassesOn (round_rates_on (graph_view graph.now) last.now) none_fired
        (firings_of round.now) greatest.now channel }
    ensures nodes { ¬ (result ≡ Err refused.NodeLimit) }
{
    match sizes(alloc, graph, greatest, last, round) {
        Ok(sizes) => Ok(sizes),
        Err(error) => Err(refusal_of(error)),
    }
}

/// Why there are no sizes: there is no order to be found.
fn refusal_of(error: ScheduleError) -> FissError
    requires { (in_startup : Bool) → ¬ (error ≡ unsized.Deadlock in_startup) }
    ensures limit { (channel : ℕ) → result ≡ refused.BufferLimit channel
        → error ≡ unsized.BufferLimit channel }
    ensures nodes { ¬ (result ≡ refused.NodeLimit) }
{
    match error {
        ScheduleError::BufferLimit { channel } => FissError::BufferLimit { channel },
        ScheduleError::NoMemory => FissError::NoMemory,
        ScheduleError::Deadlock { in_startup: _ } => unreachable!(),
    }
}
