// The stages of a plan, before start-up.

ghost use Rattle.std.specs.Prelude.{◌≡◌, ◌<◌, IfOk, length};
ghost use Rattle.strc_stage_cut.specs.Launches.{IsLaunch};
ghost use Rattle.strc_stage_cut.specs.Stages.{stages_view};

use crate::plan_cut::{Cut, even_bounds};
use crate::plan_start::launched;
use crate::stage_ring::Launch;
use std::alloc::Global;
use std::marker::Model;
use strc_lex_names::memory::NoMemory;
use strc_stage_plan::plan::Plan;

/// A plan, cut into stages, one for each of so many workers, or for each group of nodes where these
/// are fewer (Gordon, Thies and Amarasinghe 2006: coarse-grained software pipelining). They share
/// the plan, and so name no lifetime. Contracts see the plan and the number of workers.
pub struct Stages {
    plan: Plan,
    workers: u32,
    cut: Cut,
}

impl Drop for Stages {
    fn drop(self) {
        let Stages {
            plan: _,
            workers: _,
            cut: _,
        } = self;
    }
}

impl Model for Stages {
    ghost use Rattle.std.specs.Coded.{codes};
    ghost use Rattle.strc_stage_plan.specs.contracts.plan.Plan as whole_plan;
    ghost use Rattle.strc_stage_cut.specs.Stages.{AreStages, StagesView, stages_view};

    ghost Value = { StagesView };

    ghost coded = { Prim.hlevel (codes, whole_plan.the_row.coded) };

    ghost view = { λ s. stages_view s.plan s.workers };

    ghost invariant = { λ s. AreStages s.plan s.workers s.cut };
}

impl Stages {
    /// The plan that is cut so.
    pub fn plan(&self) -> &Plan
        ensures { result.now ≡ self.now.plan }
    {
        &self.plan
    }
}

/// The stages of a plan for so many workers. It takes memory for lists of stages, channels and
/// tapes, whatever the nodes' codes are.
pub fn cut(alloc: Global, plan: &Plan, workers: u32) -> Result<Stages, NoMemory>
    requires workers { 0 < workers }
    requires nodes { 0 < length plan.now.graph.nodes }
    ensures { IfOk result (λ stages. stages ≡ stages_view plan.now workers) }
{
    plan.known();
    let bounds = even_bounds(alloc, plan, workers)?;
    let round = plan.transformed_schedule().round();
    let cut = Cut::new(alloc, plan, round, bounds)?;
    Ok(Stages {
        plan: plan.copy()?,
        workers,
        cut,
    })
}

/// Start-up of a plan on this thread; then its nodes are parted among the stages, which have all
/// finished where there are no rounds.
///
/// Err only where memory runs out.
pub fn launch(alloc: Global, stages: Stages, input: &[i32], rounds: u32) -> Result<Launch, NoMemory>
    ensures { IfOk result (IsLaunch stages.plan input.now rounds stages.workers) }
{
    launched(
        alloc,
        &stages.plan,
        &stages.cut,
        input,
        rounds,
        stages.workers,
    )
}
