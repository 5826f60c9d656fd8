// The pictures of a plan.

ghost use Rattle.std.specs.Prelude.{◌≡◌, ◌<◌, IfOk, map};
ghost use Rattle.strc_cli.specs.Answering.{labelled_text, run_batch, run_bounds, stages_text};
ghost use Rattle.strc_cli_pictures.specs.Parts as parts;
ghost use Rattle.strc_cli.specs.Drawing.{AreStagesDrawn, IsDrawn, IsGraphDrawn};

use crate::answer::Answer;
use std::alloc::{AllocError, Global};
use strc_batch::chosen_batch;
use strc_cli_output::stop::Stop;
use strc_cli_pictures::parts::{labels_after, round_shares, startup_shares};
use strc_cli_pictures::picture::{Detail, picture, plan_picture};
use strc_cli_pictures::times::shares_in;
use strc_elab_paths::outline::outline_of;
use strc_elab_paths::paths::labels_of;
use strc_elab_stream::stream::Stream;
use strc_lex_names::memory::NoMemory;
use strc_run::compile::Plan;
use strc_run::refusal::Refusal;
use strc_run::run::{RunRefusal, WORKER_LIMIT};
use strc_run_refusal::placed_refusal::PlacedRefusal;
use strc_stage_plan::bounds::stage_bounds;
use strc_stage_weights::bounds::weighed_bounds;
use strc_stage_weights::step_rounds::{round_work, rounds_for_step};

/// The picture of the flat graph of a stream's plan, with what a run wrote of the time of its
/// nodes.
#[tactic(auto, using(crate::proofs::Refusing::graph_so))]
pub(crate) fn graph_drawn(
    alloc: Global,
    stream: &Stream,
    plan: &Plan,
    depth: Option<u32>,
    times: &[u8],
) -> Answer
    ensures { IsGraphDrawn stream.now depth plan.now result }
{
    let Ok(shares) = shares_in(alloc, times, plan.graph().nodes().len()) else {
        return Answer::Stopped(Stop::Refused(PlacedRefusal::from(Refusal::NoMemory)));
    };
    let detail = Detail {
        depth,
        shares: &shares,
    };
    drawn(alloc, stream, plan, detail)
}

/// The picture of the flat graph of a stream's plan.
fn drawn(alloc: Global, stream: &Stream, plan: &Plan, detail: Detail<'_>) -> Answer
    ensures { IsDrawn stream.now detail.entry.depth detail.entry.shares.now plan.now result }
{
    match picture(
        alloc,
        stream,
        plan.graph(),
        plan.startup_counts().as_slice(),
        plan.round_counts().as_slice(),
        plan.sizes(),
        detail,
    ) {
        Ok(picture) => Answer::Drawn(picture),
        Err(_) => Answer::Stopped(Stop::Refused(PlacedRefusal::from(Refusal::NoMemory))),
    }
}

/// The picture of what so many workers run of a stream's plan. `BadWorkers` comes where their
/// number isn't one from 1 to 64.
pub(crate) fn stages_drawn(alloc: Global, stream: &Stream, plan: &Plan, workers: u32) -> Answer
    ensures { AreStagesDrawn stream.now plan.now workers result }
{
    if workers == 0 || workers > WORKER_LIMIT {
        return Answer::Stopped(Stop::NotRun(RunRefusal::BadWorkers));
    }
    match stages_picture(alloc, stream, plan, workers) {
        Ok(picture) => Answer::Drawn(picture),
        Err(_) => Answer::Stopped(Stop::Refused(PlacedRefusal::from(Refusal::NoMemory))),
    }
}

/// A plan's graph after fission, in stages for so many workers; its stream names the nodes.
fn stages_picture(
    alloc: Global,
    stream: &Stream,
    plan: &Plan,
    workers: u32,
) -> Result<Vec<u8>, NoMemory>
    requires { 0 < workers }
    ensures { IfOk result (λ picture. picture.items ≡ stages_text stream.now plan.now workers) }
{
    let parts = outline_of(alloc, stream)?;
    let labels = labels_of(alloc, &parts)?;
    labelled_picture(alloc, &labels, plan, workers)
}

/// The same, of a plan whose nodes have these labels before fission.
fn labelled_picture(
    alloc: Global,
    labels: &[Vec<u8>],
    plan: &Plan,
    workers: u32,
) -> Result<Vec<u8>, NoMemory>
    requires { 0 < workers }
    ensures { IfOk result (λ picture. picture.items
        ≡ labelled_text (map (λ l. l.items) labels.now) plan.now workers) }
{
    let labels = labels_of_run(alloc, plan, labels)?;
    let startup = startup_of_run(alloc, plan)?;
    let round = round_of_run(alloc, plan)?;
    let bounds = bounds_of_run(alloc, plan, workers)?;
    let batch = batch_of_run(alloc, plan, workers)?;
    Ok(plan_picture(
        alloc,
        plan.transformed_graph(),
        &labels,
        &startup,
        &round,
        plan.transformed_sizes(),
        plan.transformed_schedule().round(),
        &bounds,
        batch,
    )?)
}

/// The labels of the nodes after fission, where those before have these.
fn labels_of_run(alloc: Global, plan: &Plan, labels: &[Vec<u8>]) -> Result<Vec<Vec<u8>>, AllocError>
    ensures { IfOk result (λ after. map (λ l. l.items) after.items
        ≡ parts.labels_after plan.now.split.graph.nodes plan.now.split.origins
        (map (λ l. l.items) labels.now)) }
{
    labels_after(alloc, plan.transformed_graph(), plan.origins(), labels)
}

/// How often each node after fission fires before the first round.
fn startup_of_run(alloc: Global, plan: &Plan) -> Result<Vec<u32>, AllocError>
    ensures { IfOk result (λ counts. counts.items ≡ parts.startup_shares plan.now.split.graph.nodes
        plan.now.split.origins plan.now.startup_counts) }
{
    let counts = plan.startup_counts().as_slice();
    startup_shares(
        alloc,
        plan.transformed_graph().nodes(),
        plan.origins(),
        counts,
    )
}

/// How often each of them fires in a round.
fn round_of_run(alloc: Global, plan: &Plan) -> Result<Vec<u32>, AllocError>
    ensures { IfOk result (λ counts. counts.items ≡ parts.round_shares plan.now.split.graph.nodes
        plan.now.split.origins plan.now.round_counts) }
{
    let counts = plan.round_counts().as_slice();
    round_shares(
        alloc,
        plan.transformed_graph().nodes(),
        plan.origins(),
        counts,
    )
}

/// How many rounds so many workers run at a time, where there are as many as can be.
fn batch_of_run(alloc: Global, plan: &Plan, workers: u32) -> Result<u32, NoMemory>
    requires { 0 < workers }
    ensures { IfOk result (λ batch. batch ≡ run_batch plan.now workers) }
{
    let least = if workers > 1 {
        rounds_for_step(round_work(alloc, plan)?, workers)
    } else {
        1
    };
    Ok(chosen_batch(plan, u32::MAX / workers, least))
}

/// The bounds of the stages that so many workers run: those of even work.
fn bounds_of_run(alloc: Global, plan: &Plan, workers: u32) -> Result<Vec<usize>, NoMemory>
    requires { 0 < workers }
    ensures { IfOk result (λ bounds. bounds.items ≡ run_bounds plan.now workers) }
{
    plan.known();
    if plan.graph().nodes().is_empty() {
        let round = plan.transformed_schedule().round();
        return Ok(stage_bounds(alloc, plan.transformed_graph(), round, workers)?);
    }
    weighed_bounds(alloc, plan, workers)
}
