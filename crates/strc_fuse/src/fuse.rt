// Fusion of a schedule's round.

ghost use Rattle.std.specs.Prelude.{◌≡◌, ℕ, Bool, false, ◌≤◌, List, All, Err, IfOk, OnOk, OnErr};
ghost use Rattle.std.specs.Prelude.{length};
ghost use Rattle.strc_elab_dataflow.specs.Flat as flat;
ghost use Rattle.strc_elab_dataflow.specs.Queues.{TakesWithinWindow};
ghost use Rattle.strc_elab_graph.specs.Graphs.{NodeCode};
ghost use Rattle.strc_elab_graph.specs.Meaning.{node_meaning};
ghost use Rattle.strc_elab_graph.specs.NodeView.{graph_view};
ghost use Rattle.strc_startup.specs.Rates.{rates_of};
ghost use Rattle.strc_startup.specs.declared.channel_rates.ChannelRates.{ChannelRates};
ghost use Rattle.strc_sched_orders.specs.Buffers.{size_limit};
ghost use Rattle.strc_sched_orders.specs.Firings.{Firings, none_fired};
ghost use Rattle.strc_sched_orders.specs.Greedy.{firings_of};
ghost use Rattle.strc_sched_orders.specs.Order.{firing_count, IsOrder};
ghost use Rattle.strc_sched_orders.specs.Peaks.{AreRaised, HasNodes};
ghost use Rattle.strc_sched_orders.specs.RoundRates.{is_copy};
ghost use Rattle.strc_sched_orders.specs.Rounds.{IsPastPrework, RoundBalances};
ghost use Rattle.strc_sched_orders.specs.Sizing.{round_rates_on, PassesOn};
ghost use Rattle.strc_sched_orders.specs.declared.error.ScheduleError.TheVariants as unsized;
ghost use Rattle.strc_elab_dataflow.specs.FusedUnits.{AreFused};
ghost use Rattle.strc_elab_dataflow.specs.Same.{IsWired};
ghost use Rattle.strc_fuse.specs.Fusion.{FusedPass, IsFusible, DoTheSame};
ghost use Rattle.strc_fuse.specs.Units.{is_free, round_units, ArePlaced};
ghost use Rattle.strc_fuse.specs.declared.error.FuseError.TheVariants as refused;

use crate::error::FuseError;
use crate::units::fused_units;
use std::alloc::Global;
use strc_elab_graph::graph::Graph;
use strc_sched_orders::buffer_sizes::sizes;
use strc_sched_orders::error::ScheduleError;
use strc_sched_orders::parts::Schedule;
use strc_sched_orders::unit::Unit;

/// Fuses the units of a schedule's round, and sizes the buffers anew.
///
/// From left to right, two neighbouring units become one where their nodes are outside feedback
/// loops and no scatters, copies or gathers, and the new list has at most `threshold` entries: the
/// list of the first and then that of the second, each as often as its turns divided by their
/// greatest common divisor, and together as many turns as that. The new unit is then tried with the
/// one after it (Gordon, Thies and Amarasinghe 2006: fusion). With 0 nothing is fused. Start-up is
/// as before.
///
/// The schedule has an entry for each channel, and its round names nodes of the graph.
/// `BufferLimit` comes for the lowest channel that would hold more than 16,777,216 items then;
/// `NoMemory` can come in place of any answer, and comes where `sizes` of strc_sched_orders says.
/// The schedule is then as before.
pub fn fuse(
    alloc: Global,
    graph: &Graph,
    schedule: &mut Schedule,
    threshold: u32,
) -> Result<(), FuseError>
    requires before { length schedule.old.greatest ≡ length graph.now.channels }
    requires fill { length schedule.old.last ≡ length graph.now.channels }
    requires nodes { All (HasNodes (length graph.now.nodes)) schedule.old.round }
    ensures units { OnOk result (AreFused (is_free (graph_view graph.now)) threshold
        (round_units schedule.old.round) (round_units schedule.new.round)) }
    ensures counts { OnOk result ((node : ℕ) → firing_count (firings_of schedule.new.round) node
        ≡ firing_count (firings_of schedule.old.round) node) }
    ensures kept { OnOk result (schedule.new
        ≡ record schedule.old { round = schedule.new.round; sizes = schedule.new.sizes }) }
    ensures nodes { OnOk result (All (HasNodes (length graph.now.nodes)) schedule.new.round) }
    ensures channels { OnOk result (length schedule.new.sizes ≡ length graph.now.channels) }
    ensures within { OnOk result (All (λ size. size ≤ size_limit) schedule.new.sizes) }
    ensures sizes { OnOk result (AreRaised (round_rates_on (graph_view graph.now) schedule.old.last)
        none_fired (firings_of schedule.new.round) schedule.old.greatest schedule.new.sizes) }
    ensures order { (channels : List ChannelRates) (counts round : Firings)
        → All (IsPastPrework counts) channels → All (RoundBalances round) channels
        → ArePlaced channels round (is_free (graph_view graph.now)) (round_units schedule.old.round)
        → IsOrder channels counts (firings_of schedule.old.round)
        → OnOk result (IsOrder channels counts (firings_of schedule.new.round)
        × ArePlaced channels round (is_free (graph_view graph.now))
        (round_units schedule.new.round)) }
    ensures runnable { (startup round : Firings)
        → All (λ node. is_copy node ≡ false) (graph_view graph.now).nodes
        → IsFusible (rates_of (graph_view graph.now)) (is_free (graph_view graph.now)) startup round
        schedule.old
        → OnOk result (IsFusible (rates_of (graph_view graph.now)) (is_free (graph_view graph.now))
        startup round schedule.new) }
    ensures same { (streams : flat.Graph NodeCode) → TakesWithinWindow node_meaning streams
        → IsWired node_meaning streams
        → OnOk result (DoTheSame streams (firings_of schedule.old.round)
        (firings_of schedule.new.round)) }
    ensures limit { (channel : ℕ) → result ≡ Err (refused.BufferLimit channel)
        → FusedPass (graph_view graph.now) threshold schedule.old channel }
    ensures error { OnErr result (schedule.new ≡ schedule.old) }
{
    let round = fused_units(alloc, graph, schedule.round(), threshold)?;
    let sizes = sizes_of(alloc, graph, schedule, &round)?;
    schedule.replace_round(round, sizes);
    Ok(())
}

/// The sizes of the buffers with another round.
fn sizes_of(
    alloc: Global,
    graph: &Graph,
    schedule: &Schedule,
    round: &[Unit],
) -> Result<Vec<u32>, FuseError>
    requires before { length schedule.now.greatest ≡ length graph.now.channels }
    requires fill { length schedule.now.last ≡ length graph.now.channels }
    requires nodes { All (HasNodes (length graph.now.nodes)) round.now }
    ensures channels { IfOk result (λ sizes. length sizes.items ≡ length graph.now.channels) }
    ensures within { IfOk result (λ sizes. All (λ size. size ≤ size_limit) sizes.items) }
    ensures sizes { IfOk result (λ sizes. AreRaised
        (round_rates_on (graph_view graph.now) schedule.now.last) none_fired (firings_of round.now)
        schedule.now.greatest sizes.items) }
    ensures limit { (channel : ℕ) → result ≡ Err (refused.BufferLimit channel)
        → PassesOn (round_rates_on (graph_view graph.now) schedule.now.last) none_fired
        (firings_of round.now) schedule.now.greatest channel }
{
    match sizes(alloc, graph, schedule.greatest(), schedule.last(), round) {
        Ok(sizes) => Ok(sizes),
        Err(error) => Err(refusal_of(error)),
    }
}

/// Why there are no sizes: there is no order to be found.
fn refusal_of(error: ScheduleError) -> FuseError
    requires { (in_startup : Bool) → ¬ (error ≡ unsized.Deadlock in_startup) }
    ensures { (channel : ℕ) → result ≡ refused.BufferLimit channel
        → error ≡ unsized.BufferLimit channel }
{
    match error {
        ScheduleError::BufferLimit { channel } => FuseError::BufferLimit { channel },
        ScheduleError::NoMemory => FuseError::NoMemory,
        ScheduleError::Deadlock { in_startup: _ } => unreachable!(),
    }
}
