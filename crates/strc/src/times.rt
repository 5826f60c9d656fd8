// What a person reads of the time that the stages of a plan took.

use crate::node_shares::{StagePart, push_node_lines};
use std::alloc::{AllocError, Global};
use std::time::Clock;
use strc_cli::explanation::RunPlan;
use strc_elab_graph::graph::Node;
use strc_lex_names::memory::NoMemory;
use strc_run::compile::Plan;
use strc_run::sharing::Batches;
use strc_run_links::{StageTimes, alone_line, stage_line};
use strc_stage_plan::bounds::stage_bounds;
use strc_stage_weights::bounds::weighed_bounds;

/// How many rounds went at a time, and a line for each stage of a plan that so many workers ran to
/// its end or to a fault, with its nodes after fission, its steps and their time; or one line where
/// the calling thread did all. Then a line for each node before fission, with its estimated share
/// of the time and its path. No bytes where memory runs out.
pub(crate) fn times_message<C: Clock>(
    alloc: Global,
    ran: &RunPlan,
    workers: u32,
    is_done: bool,
    times: &StageTimes<'_, C>,
) -> Vec<u8> {
    match told_run(alloc, ran, workers, is_done, times) {
        Ok(lines) => lines,
        Err(_) => Vec::new(alloc),
    }
}

fn told_run<C: Clock>(
    alloc: Global,
    ran: &RunPlan,
    workers: u32,
    is_done: bool,
    times: &StageTimes<'_, C>,
) -> Result<Vec<u8>, NoMemory> {
    let mut lines = batches_line(alloc, ran.batches)?;
    // What is repeated is so by stages of even numbers of groups.
    let is_done = is_done && !ran.batches.fell_back;
    lines.extend_from_slice(&times_lines(alloc, &ran.plan, workers, is_done, times)?)?;
    Ok(lines)
}

// How many rounds went at a time.
fn batches_line(alloc: Global, batches: Batches) -> Result<Vec<u8>, AllocError> {
    let Batches {
        each,
        before,
        fell_back,
        rounds: _,
    } = batches;
    let rounds = if each == 1 { "round" } else { "rounds" };
    let line = if fell_back {
        format!(in alloc;
            "strc: {each} {rounds} at a time, to no end: all went again, one by one\n"
        )?
    } else if before > 0 {
        format!(in alloc; "strc: {each} {rounds} at a time, after {before} one by one\n")?
    } else {
        format!(in alloc; "strc: {each} {rounds} at a time\n")?
    };
    line.as_bytes().to_vec(alloc)
}

fn times_lines<C: Clock>(
    alloc: Global,
    plan: &Plan,
    workers: u32,
    is_done: bool,
    times: &StageTimes<'_, C>,
) -> Result<Vec<u8>, NoMemory> {
    if times.has_steps() {
        let bounds = bounds_of(alloc, plan, workers, is_done)?;
        let mut lines = stage_lines(alloc, plan, &bounds, times)?;
        let stages = stage_parts(alloc, &bounds, times)?;
        push_node_lines(alloc, plan, &stages, &mut lines)?;
        return Ok(lines);
    }
    let Some(age) = times.age() else {
        return Ok(Vec::new(alloc));
    };
    let mut lines = alone_line(alloc, age)?;
    let whole = StagePart {
        from: 0,
        to: plan.transformed_graph().nodes().len(),
        nanoseconds: age.max(1),
    };
    push_node_lines(alloc, plan, &[whole], &mut lines)?;
    Ok(lines)
}

// The stages with these bounds, and their times.
fn stage_parts<C: Clock>(
    alloc: Global,
    bounds: &[usize],
    times: &StageTimes<'_, C>,
) -> Result<Vec<StagePart>, AllocError> {
    let mut stages = Vec::new(alloc);
    for at in 1..bounds.len() {
        stages.push(StagePart {
            from: bounds[at - 1],
            to: bounds[at],
            nanoseconds: times.stage(at - 1).nanoseconds,
        })?;
    }
    Ok(stages)
}

// The bounds of the stages: of even work; of even numbers of groups where the run was repeated, one
// round by one, to find a fault.
fn bounds_of(
    alloc: Global,
    plan: &Plan,
    workers: u32,
    is_done: bool,
) -> Result<Vec<usize>, NoMemory> {
    plan.known();
    if is_done && workers > 0 && !plan.graph().nodes().is_empty() {
        return weighed_bounds(alloc, plan, workers);
    }
    let round = plan.transformed_schedule().round();
    Ok(stage_bounds(alloc, plan.transformed_graph(), round, workers)?)
}

fn stage_lines<C: Clock>(
    alloc: Global,
    plan: &Plan,
    bounds: &[usize],
    times: &StageTimes<'_, C>,
) -> Result<Vec<u8>, AllocError> {
    let mut lines = Vec::new(alloc);
    for at in 1..bounds.len() {
        let names = names_of(alloc, plan, bounds[at - 1], bounds[at])?;
        let stage = at - 1;
        let line = stage_line(alloc, stage, times.stage(stage), times.run_time(), &names)?;
        lines.extend_from_slice(&line)?;
    }
    Ok(lines)
}

// The paths of the nodes from one number to before another one, after fission by what each is then
// called too.
fn names_of(alloc: Global, plan: &Plan, from: usize, to: usize) -> Result<Vec<u8>, AllocError> {
    let graph = plan.transformed_graph();
    let mut names = Vec::new(alloc);
    for node in from..to.min(graph.nodes().len()) {
        if node > from {
            names.extend_from_slice(b", ")?;
        }
        names.extend_from_slice(name_of(plan, node))?;
    }
    Ok(names)
}

// The path of a node that isn't a scatter or a gather, or else its name.
fn name_of(plan: &Plan, node: usize) -> &[u8] {
    let graph = plan.transformed_graph();
    let path = match plan.origins().get(node) {
        Some(origin) => plan.paths().get(origin.node as usize),
        None => None,
    };
    match (graph.nodes().get(node), path) {
        (Some(Node::Scatter(_) | Node::Gather(_)), _) | (Some(_), None) => graph.name(node),
        (Some(_), Some(path)) => path.as_slice(),
        (None, _) => b"",
    }
}
