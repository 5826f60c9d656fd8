// How many rounds a step of a stage is to have, by the work in them.

ghost use Rattle.std.specs.Prelude.{◌≡◌, ◌-◌, ◌^◌, min, sum, IfOk};
ghost use Rattle.strc_stage_weights.specs.RoundWork as work;
ghost use Rattle.strc_stage_weights.specs.StepRounds as spec;

use crate::node_work::node_work;
use std::alloc::Global;
use strc_lex_names::memory::NoMemory;
use strc_stage_plan::plan::Plan;

/// How many operations a worker's step is to make, so that handing its parcel on is small beside
/// them.
pub const STEP_WORK: u64 = 4_096;

/// How many rounds a step is to have at most.
pub const MOST_ROUNDS: u64 = 1_024;

/// The work of all nodes of the graph that is run in a round, saturated at 2^64 - 1.
pub fn round_work(alloc: Global, plan: &Plan) -> Result<u64, NoMemory>
    ensures { IfOk result (λ all. all ≡ min (sum (work.node_works plan.now)) (2 ^ 64 - 1)) }
{
    let works = node_work(alloc, plan)?;
    Ok(total_of(&works))
}

/// The sum of works, saturated.
fn total_of(works: &[u64]) -> u64
    ensures { result ≡ min (sum works.now) (2 ^ 64 - 1) }
{
    let mut total: u64 = 0;
    for each in works {
        total = total.saturating_add(*each);
    }
    total
}

/// How many rounds it takes until each of so many workers has had a step's work, where a round has
/// so much: from 1 to 1,024.
pub fn rounds_for_step(work: u64, workers: u32) -> u32
    ensures { result ≡ spec.rounds_for_step work workers }
{
    let rounds = STEP_WORK * u64::from(workers) / work.max(1);
    rounds.min(MOST_ROUNDS).max(1) as u32
}
