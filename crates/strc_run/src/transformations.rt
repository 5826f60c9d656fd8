// Fission and fusion of a program's graph.

ghost use Rattle.std.specs.Prelude.{◌≡◌, ℕ, ◌<◌, Err, IfErr, IfOk, length};
ghost use Rattle.strc_elab_graph.specs.NodeView.{graph_view};
ghost use Rattle.strc_fuse.specs.Laws.{CanBeFused};
ghost use Rattle.strc_fuse.specs.Units.{round_units};
ghost use Rattle.strc_fiss.specs.Fissions.{IsFission, IsTransformed, SplitPasses};
ghost use Rattle.strc_fiss.specs.Numbers.{base, node_limit};
ghost use Rattle.strc_fiss.specs.OwnUnits.{round_fission};
ghost use Rattle.strc_fiss.specs.Ways.{fission_of};
ghost use Rattle.strc_fiss.specs.declared.error.FissError.TheVariants as refused;
ghost use Rattle.strc_run.specs.Refuses.{IsUntransformed};
ghost use Rattle.strc_run.specs.Reports as spec;

use crate::refusal::Refusal;
use std::alloc::Global;
use strc_balance::counts::Counts;
use strc_elab_graph::graph::Graph;
use strc_fiss::error::FissError;
use strc_fiss::fission::fission;
use strc_fiss::split::Split;
use strc_fuse::error::FuseError;
use strc_sched_orders::parts::Schedule;

/// A graph and its schedule, with filters split among at most so many copies, and then the units of
/// the round fused into lists of at most so many entries.
///
/// `NodeLimit` and `BufferLimit` come as `fission` has them, and then `BufferLimit` as `fuse_round`
/// has it; `NoMemory` can come in place of any answer. All firings of each node can be dealt.
pub(crate) fn transformed(
    alloc: Global,
    graph: &Graph,
    round_counts: &Counts,
    schedule: &Schedule,
    ways: u32,
    fuse: u32,
) -> Result<Split, Refusal>
    requires fusible { CanBeFused (graph_view graph.now) schedule.now }
    requires whole { round_fission (graph_view graph.now) (round_units schedule.now.round)
        round_counts.now ways ≡ fission_of (graph_view graph.now) round_counts.now ways }
    ensures transformed { IfOk result (IsTransformed
        (fission_of (graph_view graph.now) round_counts.now ways) (graph_view graph.now)
        schedule.now fuse) }
    ensures refused { IfErr result (IsUntransformed (graph_view graph.now) round_counts.now
        schedule.now ways fuse) }
{
    let mut split = match split_graph(alloc, graph, round_counts, schedule, ways) {
        Ok(split) => split,
        Err(error) => return Err(fission_refusal_of(error)),
    };
    match split.fuse_round(alloc, fuse) {
        Ok(()) => Ok(split),
        Err(error) => Err(fusion_refusal_of(error)),
    }
}

/// A graph and its schedule after fission, where all firings of each node can be dealt: nodes are
/// split by how often they fire in a round.
fn split_graph(
    alloc: Global,
    graph: &Graph,
    round_counts: &Counts,
    schedule: &Schedule,
    ways: u32,
) -> Result<Split, FissError>
    requires fusible { CanBeFused (graph_view graph.now) schedule.now }
    requires whole { round_fission (graph_view graph.now) (round_units schedule.now.round)
        round_counts.now ways ≡ fission_of (graph_view graph.now) round_counts.now ways }
    ensures split { IfOk result (IsFission
        (fission_of (graph_view graph.now) round_counts.now ways) (graph_view graph.now)
        schedule.now) }
    ensures nodes { result ≡ Err refused.NodeLimit → node_limit < base
        (fission_of (graph_view graph.now) round_counts.now ways) (length graph.now.nodes) }
    ensures limit { (channel : ℕ) → result ≡ Err (refused.BufferLimit channel)
        → SplitPasses (fission_of (graph_view graph.now) round_counts.now ways)
        (graph_view graph.now) schedule.now channel }
{
    fission(alloc, graph, round_counts, schedule, ways)
}

/// Why a graph isn't split.
fn fission_refusal_of(error: FissError) -> Refusal
    ensures { result ≡ spec.fission_refusal_of error }
{
    match error {
        FissError::NodeLimit => Refusal::NodeLimit,
        FissError::BufferLimit { channel } => Refusal::BufferLimit { channel },
        FissError::NoMemory => Refusal::NoMemory,
    }
}

/// Why a schedule isn't fused.
fn fusion_refusal_of(error: FuseError) -> Refusal
    ensures { result ≡ spec.fusion_refusal_of error }
{
    match error {
        FuseError::BufferLimit { channel } => Refusal::BufferLimit { channel },
        FuseError::NoMemory => Refusal::NoMemory,
    }
}
