// Start-up of a plan, and the ring of stages that it leaves.

ghost use Rattle.std.specs.Prelude.{IfOk};
ghost use Rattle.strc_stage_cut.specs.Launches.{IsLaunch};
ghost use Rattle.strc_stage_cut.specs.Stages.{AreStages};

use crate::plan_cut::Cut;
use crate::stage_ring::{Launch, ring_of};
use crate::startup::{Startup, start_up};
use std::alloc::Global;
use strc_lex_names::memory::NoMemory;
use strc_stage_plan::plan::Plan;

/// Start-up of a plan on this thread; then its nodes are parted among the stages that so many
/// workers share.
pub(crate) fn launched(
    alloc: Global,
    plan: &Plan,
    cut: &Cut,
    input: &[i32],
    rounds: u32,
    workers: u32,
) -> Result<Launch, NoMemory>
    requires stages { AreStages plan.now workers cut.now }
    ensures { IfOk result (IsLaunch plan.now input.now rounds workers) }
{
    match start_up(alloc, plan, input)? {
        Startup::Ended { circuit, machine } => {
            let round = plan.transformed_schedule().round();
            let ring = ring_of(alloc, plan, round, cut, &circuit, machine, rounds)?;
            Ok(Launch::Going(ring))
        }
        Startup::Faulted {
            node,
            firing,
            cause,
        } => Ok(Launch::Faulted {
            node,
            firing,
            cause,
        }),
    }
}
