// Which firings of nodes before fission the firings of their parts are.

ghost use Rattle.std.specs.Prelude.{◌≡◌, ◌+◌, ◌*◌, ◌/◌, ◌%◌, ◌<◌, ◌^◌};
ghost use Rattle.strc_stage_steps.specs.Names as names;

use crate::old_names::old_node;
use strc_balance::counts::count_of;
use strc_elab_graph::graph::Node;
use strc_fiss::split::Origin;
use strc_stage_plan::plan::Plan;

/// Which firing of the node that a node stands for one of its firings is; where that has no number
/// of 64 bits, any.
pub(crate) fn old_firing(plan: &Plan, number: u32, firing: u64) -> u64
    ensures { names.old_firing plan.now number firing < 2 ^ 64
        → result ≡ names.old_firing plan.now number firing }
{
    let nodes = plan.transformed_graph().nodes();
    let place = number as usize;
    if place >= nodes.len() {
        return firing;
    }
    match &nodes[place] {
        Node::Copy(_, fission) => {
            let node = old_node(plan.origins(), number) as usize;
            let startup = count_of(plan.startup_counts().as_slice(), node);
            let each = count_of(plan.round_counts().as_slice(), node);
            let first = first_of(plan.origins(), number);
            copy_firing(fission.firings, startup, each, first, firing)
        }
        _ => firing,
    }
}

/// From which firing on in a round a node does those of the node that it stands for.
fn first_of(origins: &[Origin], number: u32) -> u64
    ensures { result ≡ (names.origin_at origins.now number).first }
{
    let place = number as usize;
    if place < origins.len() {
        origins[place].first
    } else {
        0
    }
}

/// A copy that has so many firings in a round has them in a row, from its first one on, of so many
/// that its node has in a round, after those of start-up.
fn copy_firing(firings: u32, startup: u32, each: u32, first: u64, firing: u64) -> u64
    ensures { startup + (firing / firings) * each + first + firing % firings < 2 ^ 64
        → result ≡ startup + (firing / firings) * each + first + firing % firings }
{
    let rounds = if firings == 0 {
        0
    } else {
        firing / u64::from(firings)
    };
    let rest = if firings == 0 {
        firing
    } else {
        firing % u64::from(firings)
    };
    let before = u128::from(rounds) * u128::from(each);
    let number = u128::from(startup) + before + u128::from(first) + u128::from(rest);
    if number < 1 << 64 {
        number as u64
    } else {
        u64::MAX
    }
}
