// The start-up of a live run.

ghost use Rattle.std.specs.Prelude.{◌≡◌, ℤ, List, map, IfOk};
ghost use Rattle.strc_elab_graph.specs.Graphs as graphs;
ghost use Rattle.strc_elab_graph.specs.NodeView.{node_view};
ghost use Rattle.strc_sched_rings.specs.Circuits.{circuit_view};
ghost use Rattle.strc_sched_machine.specs.Running.{machine_view};
ghost use Rattle.strc_stage_cut.specs.Startups.{CanRun, HasEnded};
ghost use Rattle.strc_live_runs.specs.Starts.{CanBeginWith, IsFirstReader, IsOneTape};
ghost use Rattle.strc_live_runs.specs.Starts.{IsStartedLive};

use crate::live_run::LiveRun;
use std::alloc::{AllocError, Global};
use strc_elab_graph::graph::Node;
use strc_elab_graph::tapes::tape_list;
use strc_lex_names::memory::NoMemory;
use strc_live_plans::live_plans_begin;
use strc_sched_machine::batches::order_of;
use strc_sched_machine::machine::Machine;
use strc_sched_rings::circuit::Circuit;
use strc_stage_cut::{Startup, start_up};
use strc_stage_plan::plan::Plan;
use strc_work_meaning::fault::LocatedCause;
use strc_work_meaning::word::Word;

/// What start-up comes to.
#[derive(Drop)]
pub enum Started {
    /// The rounds can go on.
    Goes(LiveRun),
    /// A firing of start-up, by its node before fission, faulted.
    Faulted {
        node: u32,
        firing: u64,
        cause: LocatedCause,
    },
}

/// Start-up of a plan over just the items that it reads; the words of its tape come in place of
/// those that `words` had. `NoMemory` comes where memory runs out.
pub fn start(
    alloc: Global,
    plan: &Plan,
    items: &[i32],
    words: &mut Vec<Word>,
) -> Result<Started, NoMemory>
    requires begin { CanBeginWith plan.now items.now }
    ensures { IfOk result (IsStartedLive plan.now items.now words.new.items) }
{
    match start_up(alloc, plan, items)? {
        Startup::Ended { circuit, machine } => begun(alloc, plan, circuit, machine, words),
        Startup::Faulted {
            node,
            firing,
            cause,
        } => Ok(Started::Faulted {
            node,
            firing,
            cause,
        }),
    }
}

/// The run that start-up leaves.
fn begun(
    alloc: Global,
    plan: &Plan,
    circuit: Circuit,
    machine: Machine,
    words: &mut Vec<Word>,
) -> Result<Started, NoMemory>
    requires run { CanRun plan.now circuit machine }
    ensures { (items : List ℤ) → CanBeginWith plan.now items
        → HasEnded plan.now items (circuit_view circuit) (machine_view machine)
        → IfOk result (IsStartedLive plan.now items words.new.items) }
{
    live_plans_begin();
    let nodes = plan.transformed_graph().nodes();
    let order = order_of(alloc, &circuit, plan.transformed_schedule().round())?;
    let mut run = LiveRun {
        alloc,
        circuit,
        machine,
        order,
        reader: reader_of(nodes),
        tape: tape_of(alloc, nodes)?,
        done: 0,
    };
    run.take_words(words);
    Ok(Started::Goes(run))
}

/// The first node that reads the program's input; past all nodes where there is none.
fn reader_of(nodes: &[Node]) -> usize
    ensures { IsFirstReader (map node_view nodes.now) result }
{
    for node in 0..nodes.len() {
        if is_reader(&nodes[node]) {
            return node;
        }
    }
    nodes.len()
}

/// Whether a node reads the program's input.
fn is_reader(node: &Node) -> bool
    ensures { result ≡ graphs.reads_input (node_view node.now) }
{
    match node {
        Node::FileReader(_) => true,
        Node::Filter(_)
        | Node::Identity
        | Node::FileWriter(_)
        | Node::Splitter(_)
        | Node::Joiner(_)
        | Node::Scatter(_)
        | Node::Copy(_, _)
        | Node::Gather(_) => false,
    }
}

/// The node that gives words, where there is just one; past all nodes elsewhere.
fn tape_of(alloc: Global, nodes: &[Node]) -> Result<usize, AllocError>
    ensures { IfOk result (IsOneTape (map node_view nodes.now)) }
{
    let tapes = tape_list(alloc, nodes)?;
    if tapes.len() == 1 {
        Ok(tapes[0])
    } else {
        Ok(nodes.len())
    }
}
