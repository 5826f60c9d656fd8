// A plan, cut into stages.

ghost use Rattle.std.specs.Prelude.{◌≡◌, ◌<◌, ◌≤◌, ◌-◌, ◌^◌, All, IfOk, length, map};
ghost use Rattle.strc_balance.specs.Balance.{count_at};
ghost use Rattle.strc_elab_graph.specs.NodeView.{channel_view};
ghost use Rattle.strc_elab_dataflow.specs.Ranges.{stage_within};
ghost use Rattle.strc_stage_cut.specs.Bounds.{bound_in, last_of};
ghost use Rattle.strc_stage_cut.specs.Cuts.{IsCutAt, IsCutting};
ghost use Rattle.strc_stage_cut.specs.Fired.{CanBeShared};
ghost use Rattle.strc_stage_cut.specs.Launches.{bounds_of};
ghost use Rattle.strc_stage_cut.specs.Links as spec;
ghost use Rattle.strc_stage_plan.specs.Plans.{transformed_of};

use crate::links::{Link, rooms};
use crate::pushes::items_between;
use crate::round_firings::firing_counts;
use std::alloc::{AllocError, Global};
use strc_elab_graph::graph::Channel;
use strc_elab_graph::tapes::tape_list;
use strc_lex_names::memory::NoMemory;
use strc_sched_orders::unit::Unit;
use strc_stage_plan::bounds::stage_bounds;
use strc_stage_plan::plan::Plan;

/// A plan, cut into stages.
#[derive(Drop)]
pub(crate) struct Cut {
    /// The node with which each stage begins, and the number of nodes.
    pub bounds: Vec<usize>,
    /// The channels, by the stages that they join.
    pub links: Vec<Link>,
    /// How many items each channel carries in a step from stage to stage.
    pub rooms: Vec<u32>,
    /// The nodes that give words.
    pub tapes: Vec<usize>,
}

impl Cut {
    /// The stages with these bounds, where these units are fired in a step.
    pub(crate) fn new(
        alloc: Global,
        plan: &Plan,
        fired: &[Unit],
        bounds: Vec<usize>,
    ) -> Result<Cut, NoMemory>
        requires at { IsCutAt plan.now bounds.items }
        requires shared { CanBeShared plan.now fired.now bounds.items }
        ensures cut { IfOk result (IsCutting plan.now fired.now) }
        ensures bounds { IfOk result (λ cut. cut.bounds.items ≡ bounds.items) }
    {
        let graph = plan.transformed_graph();
        let counts = firing_counts(alloc, graph.nodes().len(), fired)?;
        let links = links_of(alloc, plan, &counts, &bounds)?;
        let rooms = rooms(alloc, &links)?;
        let tapes = tape_list(alloc, graph.nodes())?;
        Ok(Cut {
            bounds,
            links,
            rooms,
            tapes,
        })
    }
}

/// The bounds of the stages of a plan that so many workers share evenly: a stage for each worker,
/// or for each group of nodes where these are fewer.
pub fn even_bounds(alloc: Global, plan: &Plan, workers: u32) -> Result<Vec<usize>, AllocError>
    requires workers { 0 < workers }
    requires nodes { 0 < length plan.now.graph.nodes }
    ensures bounds { IfOk result (λ bounds. bounds.items ≡ bounds_of plan.now workers) }
    ensures cut { IfOk result (λ bounds. IsCutAt plan.now bounds.items) }
{
    plan.known();
    let round = plan.transformed_schedule().round();
    stage_bounds(alloc, plan.transformed_graph(), round, workers)
}

/// The channels of a plan, by the stages that they join, where nodes fire so often.
fn links_of(
    alloc: Global,
    plan: &Plan,
    counts: &[u32],
    bounds: &[usize],
) -> Result<Vec<Link>, AllocError>
    requires bounds { 2 ≤ length bounds.now }
    requires few { All (λ channel. spec.carried_between (transformed_of plan.now)
        (count_at counts.now) bounds.now channel < 2 ^ 32) (transformed_of plan.now).channels }
    ensures { IfOk result (λ links. links.items
        ≡ spec.links_of (transformed_of plan.now) (count_at counts.now) bounds.now) }
{
    let channels = plan.transformed_graph().channels();
    let mut links = Vec::with_capacity(alloc, channels.len())?;
    for channel in channels {
        links.push(link_of(plan, counts, bounds, channel))?;
    }
    Ok(links)
}

/// A channel, by the stages that it joins.
fn link_of(plan: &Plan, counts: &[u32], bounds: &[usize], channel: &Channel) -> Link
    requires bounds { 2 ≤ length bounds.now }
    requires few { spec.carried_between (transformed_of plan.now) (count_at counts.now) bounds.now
        (channel_view channel.now) < 2 ^ 32 }
    ensures { result ≡ spec.link_of (transformed_of plan.now) (count_at counts.now) bounds.now
        (channel_view channel.now) }
{
    let nodes = plan.transformed_graph().nodes();
    let from = stage_at(bounds, channel.source.node as usize);
    let to = stage_at(bounds, channel.target.node as usize);
    Link {
        from,
        to,
        room: items_between(nodes, counts, from != to, channel.source),
    }
}

/// The stage of a node: the last that begins at it or before it.
fn stage_at(bounds: &[usize], node: usize) -> usize
    requires { 2 ≤ length bounds.now }
    ensures { result ≡ stage_within (bound_in bounds.now) (last_of bounds.now) node }
{
    let mut found = 0;
    for stage in 0..bounds.len() - 2 {
        if bounds[stage + 1] <= node {
            found = stage + 1;
        }
    }
    found
}
