// How many rounds a batch is to have, by counts that a plan has.

ghost use Rattle.std.specs.Prelude.{◌≡◌, ◌-◌, ◌^◌, map, min, sum};
ghost use Rattle.strc_elab_graph.specs.NodeView.{node_view};
ghost use Rattle.strc_fuse.specs.Units.{round_unit, round_units};
ghost use Rattle.strc_batch.specs.Choice as spec;

use strc_elab_graph::graph::Node;
use strc_elab_graph::rates::{pops_at, pushes_at, window_at};
use strc_sched_orders::unit::Unit;
use strc_stage_plan::plan::Plan;

/// How many firings of a node are done at once where they can be.
pub const LANES: u32 = 64;

/// How many batches there are at least.
pub const LEAST_BATCHES: u32 = 8;

/// How many items all buffers are to hold, so that they stay in a second cache.
pub const CACHED_ITEMS: u64 = 65_536;

/// How many rounds a batch is to have where a stage runs so many, of which a step of it is to have
/// `least`: from 1, which is no batch.
///
/// There are so many that each node fires 64 times at least, and as many as a step is to have; at
/// most so many that there are 8 batches, and that buffers of so many times the plan's sizes hold
/// no more than 65,536 items. A round most of whose units are single firings of filters with state
/// that hand their items on to the next one isn't put into batches for the firings' sake: its items
/// stay in one place, where in a batch they would go over buffers. Filters without state fire 64
/// times at once in a batch, which is worth more.
pub fn chosen_batch(plan: &Plan, rounds: u32, least: u32) -> u32
    ensures { result ≡ spec.chosen_batch plan.now rounds least }
{
    let wanted = lanes_batch(plan).max(least).min(rounds / LEAST_BATCHES);
    let room = CACHED_ITEMS / items_held(plan.transformed_sizes()).max(1);
    u64::from(wanted).min(room).max(1) as u32
}

/// How many rounds a batch is to have for the sake of its firings.
fn lanes_batch(plan: &Plan) -> u32
    ensures { result ≡ spec.lanes_batch plan.now }
{
    let units = plan.transformed_schedule().round();
    if is_chained(plan.transformed_graph().nodes(), units) {
        1
    } else {
        batch_for_lanes(least_turns(units))
    }
}

/// How many rounds it takes until a node has fired 64 times, where it fires so often in one.
fn batch_for_lanes(turns: u32) -> u32
    ensures { result ≡ spec.batch_for_lanes turns }
{
    if turns >= LANES {
        1
    } else {
        (LANES - 1) / turns.max(1) + 1
    }
}

/// How often the unit with the fewest turns fires.
fn least_turns(units: &[Unit]) -> u32
    ensures { result ≡ spec.least_turns (round_units units.now) }
{
    let mut least = LANES;
    for unit in units {
        least = least.min(unit.turns);
    }
    least
}

/// How many items buffers of these sizes hold; 2^64 - 1 where there are more.
fn items_held(sizes: &[u32]) -> u64
    ensures { result ≡ min (sum sizes.now) (2 ^ 64 - 1) }
{
    let mut held: u64 = 0;
    for size in sizes {
        held = held.saturating_add(u64::from(*size));
    }
    held
}

/// Whether most units of a round hand their items on to the next one.
fn is_chained(nodes: &[Node], units: &[Unit]) -> bool
    ensures { result ≡ spec.is_chained (map node_view nodes.now) (round_units units.now) }
{
    let mut handed: usize = 0;
    for place in 1..units.len() {
        if hands_on(nodes, &units[place - 1], &units[place]) {
            handed += 1;
        }
    }
    3 * units.len() as u128 <= 4 * handed as u128
}

/// Whether two units are single firings of filters with state, and the second takes what the first
/// gives.
fn hands_on(nodes: &[Node], unit: &Unit, next: &Unit) -> bool
    ensures { result ≡ spec.hands_on (map node_view nodes.now) (round_unit unit.now)
        (round_unit next.now) }
{
    match (single_rates(nodes, unit), single_rates(nodes, next)) {
        (Some(first), Some(second)) => first.pushes == second.pops,
        _ => false,
    }
}

/// What a firing takes and gives.
#[derive(Clone, Copy)]
struct SingleRates {
    pops: u128,
    pushes: u128,
}

/// The rates of a unit that is a single firing of a filter with state, which looks at no item that
/// it doesn't take.
fn single_rates(nodes: &[Node], unit: &Unit) -> Option<SingleRates>
    ensures { spec.IsSingleRates (map node_view nodes.now) (round_unit unit.now) result }
{
    if unit.turns != 1 || unit.nodes.len() != 1 || unit.nodes[0] as usize >= nodes.len() {
        return None;
    }
    let node = &nodes[unit.nodes[0] as usize];
    let pops = pops_at(node, 1, 0);
    match node {
        Node::Filter(instance) if !instance.code.is_stateless() && window_at(node, 1, 0) <= pops =>
            Some(SingleRates {
                pops,
                pushes: pushes_at(node, 1, 0),
            }),
        _ => None,
    }
}
