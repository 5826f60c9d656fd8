// The sizes of buffers for batches of rounds.

ghost use Rattle.std.specs.Prelude.{◌≡◌, ℕ, ◌+◌, ◌*◌, ◌<◌, ◌≤◌, ◌^◌, All, IfErr, IfOk};
ghost use Rattle.std.specs.Prelude.{length, map, slice_index};
ghost use Rattle.strc_balance.specs.Balance.{count_at};
ghost use Rattle.strc_elab_graph.specs.Graphs.{JoinsPorts};
ghost use Rattle.strc_elab_graph.specs.NodeView.{channel_view};
ghost use Rattle.strc_sched_orders.specs.Buffers.{size_limit};
ghost use Rattle.strc_stage_plan.specs.Plans.{transformed_of};
ghost use Rattle.strc_stage_steps.specs.Plans.{running_of};
ghost use Rattle.strc_stage_cut.specs.Links as links;
ghost use Rattle.strc_batch_plans.specs.Plans.{AreBatchSizes};
ghost use Rattle.strc_batch.specs.Sizes as spec;

use crate::error::BatchError;
use crate::groups::{group_bounds, groups_of_nodes};
use std::alloc::{AllocError, Global};
use strc_elab_graph::graph::Channel;
use strc_sched_orders::limit::SIZE_LIMIT;
use strc_stage_cut::pushes::items_between;
use strc_stage_cut::round_firings::firing_counts;
use strc_stage_plan::plan::Plan;

/// The sizes of a plan's buffers for batches of so many rounds, in items, from 0 to 16,777,216
/// (Sermulins, Thies, Rabbah and Amarasinghe 2005: execution scaling).
///
/// The groups are the finest that no stage parts. The buffer of a channel within a group is as
/// large as for a round. From a group to another it has room for the items of all other rounds of a
/// batch too. `BufferLimit` comes just where a size would be above 16,777,216, for the lowest such
/// channel, if memory suffices. The time is linear in the round, the nodes and the channels.
pub fn batch_sizes(alloc: Global, plan: &Plan, rounds: u32) -> Result<Vec<u32>, BatchError>
    requires rounds { 0 < rounds }
    requires nodes { 0 < length plan.now.graph.nodes }
    ensures sizes { IfOk result (λ sizes. spec.AreSizesFor plan.now rounds sizes.items) }
    ensures within { IfOk result (λ sizes. All (λ size. size ≤ size_limit) sizes.items) }
    ensures suffice { IfOk result (λ sizes. AreBatchSizes plan.now (spec.group_bound plan.now)
        (spec.last_group plan.now) rounds sizes.items) }
    ensures none { IfErr result (spec.HasNoSizes plan.now rounds) }
{
    let rooms = rooms_of(alloc, plan)?;
    let sizes = plan.transformed_sizes();
    enlarged(alloc, sizes, &rooms, rounds - 1)
}

/// How many items each channel carries in a round from group to group.
fn rooms_of(alloc: Global, plan: &Plan) -> Result<Vec<u32>, AllocError>
    requires nodes { 0 < length plan.now.graph.nodes }
    ensures rooms { IfOk result (λ rooms. rooms.items
        ≡ map (links.items_between plan.now (spec.group_bounds plan.now))
        (transformed_of plan.now).channels) }
{
    plan.known();
    let bounds = group_bounds(alloc, plan)?;
    let groups = groups_of_nodes(alloc, plan, &bounds)?;
    let nodes = plan.transformed_graph().nodes().len();
    let round = plan.transformed_schedule().round();
    let counts = firing_counts(alloc, nodes, round)?;
    rooms_by(alloc, plan, &bounds, &groups, &counts)
}

/// The same, where nodes fire so often and are in these groups, which begin so.
fn rooms_by(
    alloc: Global,
    plan: &Plan,
    bounds: &[usize],
    groups: &[usize],
    counts: &[u32],
) -> Result<Vec<u32>, AllocError>
    requires counts { count_at counts.now ≡ (running_of plan.now).counts }
    requires groups { spec.AreGroupsOf plan.now bounds.now groups.now }
    requires joins { All (JoinsPorts (transformed_of plan.now).nodes)
        (transformed_of plan.now).channels }
    requires few { All (λ channel. links.items_between plan.now bounds.now channel < 2 ^ 32)
        (transformed_of plan.now).channels }
    ensures { IfOk result (λ rooms. rooms.items
        ≡ map (links.items_between plan.now bounds.now) (transformed_of plan.now).channels) }
{
    let _bounds = bounds;
    let channels = plan.transformed_graph().channels();
    let mut rooms = Vec::with_capacity(alloc, channels.len())?;
    for channel in channels {
        rooms.push(room_of(plan, bounds, groups, counts, channel))?;
    }
    Ok(rooms)
}

/// How many items a channel carries in a round from group to group.
fn room_of(
    plan: &Plan,
    bounds: &[usize],
    groups: &[usize],
    counts: &[u32],
    channel: &Channel,
) -> u32
    requires counts { count_at counts.now ≡ (running_of plan.now).counts }
    requires groups { spec.AreGroupsOf plan.now bounds.now groups.now }
    requires joins { JoinsPorts (transformed_of plan.now).nodes (channel_view channel.now) }
    requires few { links.items_between plan.now bounds.now (channel_view channel.now) < 2 ^ 32 }
    ensures { result ≡ links.items_between plan.now bounds.now (channel_view channel.now) }
{
    let _bounds = bounds;
    let from = groups[channel.source.node as usize];
    let to = groups[channel.target.node as usize];
    let nodes = plan.transformed_graph().nodes();
    items_between(nodes, counts, from != to, channel.source)
}

/// Sizes that have room for so many rounds' items more on each channel.
fn enlarged(
    alloc: Global,
    sizes: &[u32],
    rooms: &[u32],
    rounds: u32,
) -> Result<Vec<u32>, BatchError>
    requires each { length rooms.now ≡ length sizes.now }
    ensures each { IfOk result (λ larger. length larger.items ≡ length sizes.now) }
    ensures sizes { IfOk result (λ larger. (channel : ℕ) → channel < length sizes.now
        → slice_index larger.items channel
        ≡ slice_index sizes.now channel + rounds * slice_index rooms.now channel) }
    ensures within { IfOk result (λ larger. All (λ size. size ≤ size_limit) larger.items) }
    ensures none { IfErr result (spec.IsPastOrMemory (length sizes.now)
        (λ number. slice_index sizes.now number + rounds * slice_index rooms.now number)) }
{
    let mut larger = Vec::with_capacity(alloc, sizes.len())?;
    for channel in 0..sizes.len() {
        let size = u128::from(sizes[channel]) + u128::from(rounds) * u128::from(rooms[channel]);
        if size > SIZE_LIMIT {
            return Err(BatchError::BufferLimit { channel });
        }
        larger.push(size as u32)?;
    }
    Ok(larger)
}
