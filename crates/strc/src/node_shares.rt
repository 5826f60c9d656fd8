// Which share of the time each node of a program took, by the work that its text is estimated to
// have and by the times of stages.

use std::alloc::{AllocError, Global};
use strc_cli_pictures::times::NODE_LINE;
use strc_lex_names::memory::NoMemory;
use strc_run::compile::Plan;
use strc_stage_weights::node_work::node_work;

// The thousandths of a whole.
const WHOLE: u128 = 1000;

// The parts in which shares are summed.
const BILLION: u128 = 1_000_000_000;

/// A stage: the nodes after fission from one number to before another one, and its time.
#[derive(Clone, Copy)]
pub(crate) struct StagePart {
    pub(crate) from: usize,
    pub(crate) to: usize,
    pub(crate) nanoseconds: u64,
}

/// Adds a line for each node of a plan before fission that has a path: its share of the time of all
/// stages, that of a stage being parted among its nodes by their estimated work.
pub(crate) fn push_node_lines(
    alloc: Global,
    plan: &Plan,
    stages: &[StagePart],
    lines: &mut Vec<u8>,
) -> Result<(), NoMemory> {
    let paths = plan.paths();
    let works = node_work(alloc, plan)?;
    let mut shares: Vec<u128> = Vec::from_elem(alloc, 0, paths.len())?;
    let whole = time_of(stages);
    for stage in stages {
        add_stage(plan, &works, *stage, whole, &mut shares);
    }
    for node in 0..paths.len() {
        push_node_line(alloc, node, shares[node], &paths[node], lines)?;
    }
    Ok(())
}

// Adds the shares of a stage's nodes, in billionths of the whole time, to those of the nodes that
// they come from.
fn add_stage(plan: &Plan, works: &[u64], stage: StagePart, whole: u128, shares: &mut [u128]) {
    let work = work_of(works, stage);
    if work == 0 || whole == 0 {
        return;
    }
    let time = u128::from(stage.nanoseconds).saturating_mul(BILLION) / whole;
    for node in stage.from..stage.to {
        let origin = match plan.origins().get(node) {
            Some(origin) => origin.node as usize,
            None => node,
        };
        if let Some(share) = shares.get_mut(origin) {
            let own = time.saturating_mul(work_at(works, node)) / work;
            *share = share.saturating_add(own);
        }
    }
}

// The time of all stages together, in nanoseconds.
fn time_of(stages: &[StagePart]) -> u128 {
    let mut sum: u128 = 0;
    for stage in stages {
        sum = sum.saturating_add(u128::from(stage.nanoseconds));
    }
    sum
}

// The work of a stage's nodes in a round.
fn work_of(works: &[u64], stage: StagePart) -> u128 {
    let mut sum: u128 = 0;
    for node in stage.from..stage.to {
        sum = sum.saturating_add(work_at(works, node));
    }
    sum
}

fn work_at(works: &[u64], node: usize) -> u128 {
    match works.get(node) {
        Some(work) => u128::from(*work),
        None => 0,
    }
}

// The line of a node: its number, its share in percent, and its path.
fn push_node_line(
    alloc: Global,
    node: usize,
    share: u128,
    path: &[u8],
    lines: &mut Vec<u8>,
) -> Result<(), AllocError> {
    let thousandths = (share.saturating_mul(WHOLE).saturating_add(BILLION / 2) / BILLION).min(
        WHOLE,
    );
    let told = format!(in alloc;
        "{node}: {}.{}%, estimated: ",
        thousandths / 10,
        thousandths % 10
    )?;
    lines.extend_from_slice(NODE_LINE)?;
    lines.extend_from_slice(told.as_bytes())?;
    lines.extend_from_slice(path)?;
    Ok(lines.push(b'\n')?)
}
