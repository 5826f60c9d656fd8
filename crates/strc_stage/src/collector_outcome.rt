// The outcome of a run, by what its collector has come to.

ghost use Rattle.std.specs.Prelude.{◌≡◌, ◌<◌, ◌≤◌, ◌++◌, [], length, map, ℕ, IfOk, IfErr, OnOk};
ghost use Rattle.std.specs.Prelude.{Some, slice_index_or};
ghost use Rattle.std.specs.Vec.{vec_items};
ghost use Rattle.strc_elab_graph.specs.NodeView.{node_view};
ghost use Rattle.strc_sched_outcome.specs.Tapes.{tape, tape_view};
ghost use Rattle.strc_sched_outcome.specs.declared.run_refusal.RunRefusal.TheVariants as refused;
ghost use Rattle.strc_elab_dataflow.specs.Answer.{Outcome.StartupFault};
ghost use Rattle.strc_stage_steps.specs.Laws.{TellsOutcome};
ghost use Rattle.strc_stage.specs.Answers.{Answer, IsTold, stop_at};
ghost use Rattle.strc_stage.specs.Running.{EndsSo};
ghost use Rattle.strc_stage_steps.specs.Collectors.{total_of};
ghost use Rattle.strc_stage.specs.Telling.{added, gathered_so, tapes_by};

use crate::old_names::renamed;
use std::alloc::Global;
use std::mem;
use strc_elab_graph::graph::Node;
use strc_elab_graph::tapes::gives_words;
use strc_lex_names::memory::NoMemory;
use strc_sched_orders::limit::NUMBERED_NODES;
use strc_sched_outcome::outcome::{Outcome, Round, Tape};
use strc_sched_outcome::run_refusal::RunRefusal;
use strc_sched_outcome::stop::Stop;
use strc_stage_plan::plan::Plan;
use strc_stage_steps::CollectorParts;
use strc_work_meaning::fault::LocatedCause;
use strc_work_meaning::word::Word;

/// The outcome of a plan's rounds whose collector has come to its end, by the nodes before fission.
pub fn outcome_of(
    alloc: Global,
    plan: &Plan,
    collector: CollectorParts,
) -> Result<Outcome, RunRefusal>
    ensures ending { IfOk result (EndsSo plan.now (total_of collector) collector.stop) }
    ensures memory { IfErr result (λ refusal. refusal ≡ refused.NoMemory) }
{
    let own = own_outcome(alloc, plan.transformed_graph().nodes(), collector)?;
    Ok(renamed(plan, own))
}

/// The outcome of a run of these nodes whose collector has come to its end.
fn own_outcome(
    alloc: Global,
    nodes: &[Node],
    collector: CollectorParts,
) -> Result<Outcome, RunRefusal>
    ensures ending { IfOk result (λ outcome. (answer : Answer)
        → TellsOutcome (map node_view nodes.now) (total_of collector) collector.stop answer
        → IsTold (map node_view nodes.now) answer outcome) }
    ensures memory { IfErr result (λ refusal. refusal ≡ refused.NoMemory) }
{
    let CollectorParts {
        words,
        gathered,
        stop,
        ..
    } = collector;
    match stop {
        None => Ok(Outcome::Done(told_tapes(alloc, nodes, words)?)),
        Some(stop) => stopped(alloc, nodes, words, gathered, stop),
    }
}

/// The outcome of a run that was stopped after so many rounds.
fn stopped(
    alloc: Global,
    nodes: &[Node],
    words: Vec<Vec<Word>>,
    gathered: u32,
    stop: Stop,
) -> Result<Outcome, RunRefusal>
    ensures ending { IfOk result (λ outcome. (answer : Answer)
        → TellsOutcome (map node_view nodes.now) (gathered_so (map vec_items words.items) gathered)
        (Some stop) answer
        → IsTold (map node_view nodes.now) answer outcome) }
    ensures memory { IfErr result (λ refusal. refusal ≡ refused.NoMemory) }
{
    match stop {
        Stop::Fault {
            node,
            firing,
            cause,
        } => Ok(Outcome::Fault {
            node,
            firing,
            round: Round::At(gathered),
            cause,
            tapes: told_tapes(alloc, nodes, words)?,
        }),
        Stop::NoMemory => Err(RunRefusal::NoMemory),
    }
}

/// The outcome of a run that faults in start-up: no tape has words.
pub fn faulted(
    alloc: Global,
    nodes: &[Node],
    node: u32,
    firing: u64,
    cause: LocatedCause,
) -> Result<Outcome, RunRefusal>
    ensures ending { IfOk result (IsTold (map node_view nodes.now)
        (StartupFault (stop_at node firing cause))) }
    ensures memory { IfErr result (λ refusal. refusal ≡ refused.NoMemory) }
{
    Ok(Outcome::Fault {
        node,
        firing,
        round: Round::Startup,
        cause,
        tapes: told_tapes(alloc, nodes, Vec::new(alloc))?,
    })
}

/// The tapes of nodes, with these words.
fn told_tapes(alloc: Global, nodes: &[Node], words: Vec<Vec<Word>>) -> Result<Vec<Tape>, RunRefusal>
    ensures tapes { IfOk result (λ tapes. map tape_view tapes.items
        ≡ tapes_by (map node_view nodes.now) (map vec_items words.items)) }
    ensures memory { IfErr result (λ refusal. refusal ≡ refused.NoMemory) }
{
    match tapes_with(alloc, nodes, words) {
        Ok(tapes) => Ok(tapes),
        Err(_) => Err(RunRefusal::NoMemory),
    }
}

/// The tapes of nodes, with these words, a list for each tape; where there are fewer lists, the
/// others have none.
fn tapes_with(alloc: Global, nodes: &[Node], words: Vec<Vec<Word>>) -> Result<Vec<Tape>, NoMemory>
    ensures { IfOk result (λ tapes. map tape_view tapes.items
        ≡ tapes_by (map node_view nodes.now) (map vec_items words.items)) }
{
    let mut left = words;
    let mut tapes = Vec::new(alloc);
    for node in 0..nodes.len() {
        add_tape(alloc, &nodes[node], node, &mut tapes, &mut left)?;
    }
    Ok(tapes)
}

/// A node's tape more, where it gives words: those of the list whose number is that of the tape.
fn add_tape(
    alloc: Global,
    code: &Node,
    node: usize,
    tapes: &mut Vec<Tape>,
    words: &mut Vec<Vec<Word>>,
) -> Result<(), NoMemory>
    ensures tapes { OnOk result (map tape_view tapes.new.items ≡ map tape_view tapes.old.items
        ++ added (node_view code.now) node
        (slice_index_or (map vec_items words.old.items)
        (length (map tape_view tapes.old.items)) [])) }
    ensures left { OnOk result ((place : ℕ) → length (map tape_view tapes.new.items) ≤ place
        → slice_index_or (map vec_items words.new.items) place []
        ≡ slice_index_or (map vec_items words.old.items) place []) }
{
    if !gives_words(code) {
        return Ok(());
    }
    if node >= NUMBERED_NODES {
        return Err(NoMemory);
    }
    let words = taken_list(alloc, words, tapes.len());
    tapes.push(Tape {
        node: node as u32,
        words,
    })?;
    Ok(())
}

/// A list, taken out; none where there is no such list.
fn taken_list(alloc: Global, lists: &mut Vec<Vec<Word>>, number: usize) -> Vec<Word>
    ensures taken { result.items ≡ slice_index_or (map vec_items lists.old.items) number [] }
    ensures left { (place : ℕ) → number < place
        → slice_index_or (map vec_items lists.new.items) place []
        ≡ slice_index_or (map vec_items lists.old.items) place [] }
{
    if number >= lists.len() {
        return Vec::new(alloc);
    }
    mem::replace(&mut lists[number], Vec::new(alloc))
}
