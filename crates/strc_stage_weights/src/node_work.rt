// The work of a plan's nodes.

ghost use Rattle.std.specs.Prelude.{◌≡◌, IfOk};
ghost use Rattle.strc_stage_weights.specs.RoundWork as spec;

use crate::firing_work::firing_works;
use crate::unit_work::{ROUND_WORK_LIMIT, works_of_round};
use std::alloc::Global;
use strc_lex_names::memory::NoMemory;
use strc_stage_plan::plan::Plan;

/// The work of each node of the graph that is run in a round: that of a firing as often as it
/// fires, saturated at 1,000,000,000,000,000.
pub fn node_work(alloc: Global, plan: &Plan) -> Result<Vec<u64>, NoMemory>
    ensures { IfOk result (λ works. works.items ≡ spec.node_works plan.now) }
{
    let firings = firing_works(alloc, plan.transformed_graph().nodes())?;
    let round = plan.transformed_schedule().round();
    Ok(works_of_round(alloc, &firings, round)?)
}

/// The work in a round of a node that fires so often in it, where a firing has so much.
pub fn work_in_round(count: u32, firing: u32) -> u64
    ensures { result ≡ spec.work_in_round count firing }
{
    (u64::from(count) * u64::from(firing)).min(ROUND_WORK_LIMIT)
}
