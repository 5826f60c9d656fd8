// What a run is answered whose tapes go to files.

ghost use Rattle.std.specs.Prelude.{◌≡◌, ◌≢◌, ◌⊎◌, List, ℕ, true, Err, IfOk, map};
ghost use Rattle.strc_run.specs.Rounds.{plan_reads};
ghost use Rattle.strc_cli_words.specs.declared.line.Command as lines;
ghost use Rattle.strc_elab_graph.specs.NodeView.{node_view};
ghost use Rattle.strc_cli.specs.Answering.{ReadsInput};
ghost use Rattle.strc_cli_words.specs.Outs.{names_of};
ghost use Rattle.strc_out_files.specs.Outs.{AnswersOutPlan, IsGivenBy, IsOutAnswer};
ghost use Rattle.strc_out_files.specs.Outs.{IsOutRefusedAt, IsRefusal};

use std::alloc::{AllocError, Global};
use std::sync::Wait;
use std::thread::Threads;
use strc_cli::answer::{Answer, answer_to, options_of, run_plan, sharing_of};
use strc_cli::execute::CliError;
use strc_cli_input::device::Source;
use strc_cli_output::stop::Stop;
use strc_cli_tapes::names::{NamedTape, named_tapes, node_of};
use strc_cli_words::line::{Command, Out};
use strc_elab_graph::graph::Graph;
use strc_run::compile::{Plan, compile_or_where};
use strc_run::refusal::Refusal;
use strc_run::sharing::Sharing;
use strc_run_links::Gate;
use strc_run_refusal::placed_refusal::PlacedRefusal;
use strc_stage_steps::Stage;

/// What a command comes to for a text, where tapes go to files.
#[derive(Drop)]
pub(crate) enum OutAnswer {
    /// As without files; with the nodes of the tapes that go to files.
    Answered { answer: Answer, given: Vec<usize> },
    /// No tape has this name.
    NoTape(NoTape),
}

/// A name that no tape has.
#[derive(Drop)]
pub(crate) struct NoTape {
    pub(crate) name: Vec<u8>,
    /// The tapes that there are.
    pub(crate) tapes: Vec<NamedTape>,
}

/// Which nodes' tapes go to files, or why none do.
#[derive(Drop)]
enum Given {
    Nodes(Vec<usize>),
    Absent(NoTape),
}

/// The answer to a command of which tapes go to files. A refusal of the text comes before one of a
/// tape's name, and that before the input is read.
pub(crate) fn answer_out<G: Gate<Stage>, R: Threads + Wait + Sync, I: Source>(
    rt: &R,
    alloc: Global,
    text: &[u8],
    command: &Command,
    outs: &[Out],
    input: &mut I,
    gate: &G,
) -> Result<OutAnswer, CliError>
    ensures answered { IsOutAnswer text.now command.now (map names_of outs.now)
        (I.remaining input.old) result }
    ensures failed { result ≡ Err CliError.Read → I.has_failed input.new ≡ true }
    ensures steady { result ≢ Err CliError.Read → I.has_failed input.new ≡ I.has_failed input.old }
    ensures unread { (input.new ≡ input.old) ⊎ ReadsInput text.now command.now }
    ensures located { IsOutRefusedAt text.now command.now result }
{
    match command {
        Command::Run {
            rounds,
            workers,
            ways: _,
            fuse: _,
            batch,
            stats: _,
            main: _,
        } => {
            let Ok(options) = options_of(alloc, command) else {
                return Ok(refused(alloc, PlacedRefusal::from(Refusal::NoMemory)));
            };
            let plan = match compile_or_where(alloc, text, &options) {
                Ok(plan) => plan,
                Err(placed) => return Ok(refused(alloc, placed)),
            };
            let sharing = sharing_of(*workers, *batch);
            answer_named(rt, alloc, plan, *rounds, sharing, outs, input, gate)
        }
        _ => match answer_to(rt, alloc, text, command, input, gate) {
            Ok(answer) => Ok(OutAnswer::Answered {
                answer,
                given: Vec::new(alloc),
            }),
            Err(failure) => Err(failure),
        },
    }
}

// The outcome of so many rounds of a plan by so many workers, for whatever text's plan this is, and
// the nodes whose tapes go to files.
fn answer_named<G: Gate<Stage>, R: Threads + Wait + Sync, I: Source>(
    rt: &R,
    alloc: Global,
    plan: Plan,
    rounds: Option<u32>,
    sharing: Sharing,
    outs: &[Out],
    input: &mut I,
    gate: &G,
) -> Result<OutAnswer, CliError>
    ensures answered { AnswersOutPlan plan rounds sharing.workers (map names_of outs.now)
        (I.remaining input.old) result }
    ensures failed { result ≡ Err CliError.Read → I.has_failed input.new ≡ true }
    ensures steady { result ≢ Err CliError.Read → I.has_failed input.new ≡ I.has_failed input.old }
    ensures unread { (input.new ≡ input.old) ⊎ (plan_reads plan ≡ true) }
    ensures located { (text : List ℕ) (command : lines.Command)
        → IsOutRefusedAt text command result }
{
    match given_of(alloc, plan.graph(), outs) {
        Ok(Given::Nodes(given)) => {
            match run_plan(rt, alloc, plan, rounds, sharing, input, gate) {
                Ok(answer) => Ok(OutAnswer::Answered { answer, given }),
                Err(failure) => Err(failure),
            }
        }
        Ok(Given::Absent(no_tape)) => Ok(OutAnswer::NoTape(no_tape)),
        Err(_) => Ok(refused(alloc, PlacedRefusal::from(Refusal::NoMemory))),
    }
}

// A text that is refused.
fn refused(alloc: Global, placed: PlacedRefusal) -> OutAnswer
    ensures { IsRefusal placed result }
{
    OutAnswer::Answered {
        answer: Answer::Stopped(Stop::Refused(placed)),
        given: Vec::new(alloc),
    }
}

// The nodes of the tapes that are named, in the order of the names; or the first name that no tape
// has.
fn given_of(alloc: Global, graph: &Graph, outs: &[Out]) -> Result<Given, AllocError>
    ensures { IfOk result (IsGivenBy (map node_view graph.now.nodes) (map names_of outs.now)) }
{
    let tapes = named_tapes(alloc, graph)?;
    let mut given = Vec::with_capacity(alloc, outs.len())?;
    for out in outs {
        let name = out.tape.as_bytes();
        match node_of(&tapes, name) {
            Some(node) => given.push(node)?,
            None => {
                let name = name.to_vec(alloc)?;
                return Ok(Given::Absent(NoTape { name, tapes }));
            }
        }
    }
    Ok(Given::Nodes(given))
}
