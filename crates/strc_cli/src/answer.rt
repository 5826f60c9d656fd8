// What a command is answered for a text, before anything is written.

ghost use Rattle.std.specs.Prelude.{◌≡◌, ◌≢◌, ◌⊎◌, ℕ, List, true, Err, IfOk};
ghost use Rattle.std.specs.Option.{option_map};
ghost use Rattle.strc_run.specs.Choices as choices;
ghost use Rattle.strc_run.specs.Plans.{IsPlanOf};
ghost use Rattle.strc_run.specs.Rounds.{plan_reads};
ghost use Rattle.strc_cli.specs.Answering.{AnswersCompiled, AnswersPlan, IsAnswered, ReadsInput};
ghost use Rattle.strc_cli.specs.Answering.{choice_of};
ghost use Rattle.strc_cli.specs.Explaining.{IsRefusedAt, IsUnrefused};
ghost use Rattle.strc_cli.specs.Input as spec;
ghost use Rattle.strc_cli.specs.Input.{AreAnswerBatches, IsInputOf, IsRunAnswer, RunsOwn};

use crate::execute::CliError;
use crate::long_plans::weighed;
use crate::plan_pictures::{graph_drawn, stages_drawn};
use crate::programs::emitted;
use std::alloc::{AllocError, Global};
use std::sync::Wait;
use std::thread::Threads;
use strc_cli_input::device::Source;
use strc_cli_input::input::{ReadStop, read_numbers};
use strc_cli_output::stop::Stop;
use strc_cli_words::line::Command;
use strc_cli_words::words::{BARE_FUSE, BARE_WAYS, BARE_WORKERS};
use strc_run::compile::{Compiled, Plan, compile_whole};
use strc_run::laws::plans_answer_texts;
use strc_run::options::Options;
use strc_run::refusal::Refusal;
use strc_run::run::{Outcome, RunRefusal, reads_input, run_shared};
use strc_run::sharing::{Batches, Batching, Sharing};
use strc_run_links::Gate;
use strc_run_refusal::placed_refusal::PlacedRefusal;
use strc_stage_steps::Stage;

/// What a command comes to for a text.
#[derive(Drop)]
pub enum Answer {
    /// How its run ended, with the plan that was run, and by which batches.
    Ran(Plan, Outcome, Batches),
    /// How many nodes and channels its flat graph has.
    Checked { nodes: usize, channels: usize },
    /// Its plan.
    Planned(Plan),
    /// The lines of its plan, with the path, the work and the buffers of each node.
    Weighed(Vec<u8>),
    /// The picture of its flat graph, or of what is run.
    Drawn(Vec<u8>),
    /// Its C.
    Emitted(Vec<u8>),
    /// Nothing that was asked for, for this reason.
    Stopped(Stop),
}

/// The answer to a command. A refusal of the text comes before the input is read, and one of the
/// input before one of the run. The input is read where the text is run and its graph has a reader.
/// Each step of a stage is the gate's. `Read` comes where the input fails, `Memory` where memory
/// runs out while it is read.
pub fn answer_to<G: Gate<Stage>, R: Threads + Wait + Sync, I: Source>(
    rt: &R,
    alloc: Global,
    text: &[u8],
    command: &Command,
    input: &mut I,
    gate: &G,
) -> Result<Answer, CliError>
    ensures answered { IsAnswered text.now command.now (I.remaining input.old) result }
    ensures failed { result ≡ Err CliError.Read → I.has_failed input.new ≡ true }
    ensures steady { result ≢ Err CliError.Read → I.has_failed input.new ≡ I.has_failed input.old }
    ensures unread { (input.new ≡ input.old) ⊎ ReadsInput text.now command.now }
    // Of a refusal the statement that breaks the text's rule is known, the stream and the graph.
    ensures located { IsRefusedAt text.now command.now result }
{
    let Ok(options) = options_of(alloc, command) else {
        return Ok(Answer::Stopped(Stop::Refused(PlacedRefusal::from(Refusal::NoMemory))));
    };
    let compiled = match compile_whole(alloc, text, &options) {
        Ok(compiled) => compiled,
        Err(placed) => return Ok(Answer::Stopped(Stop::Refused(placed))),
    };
    answer_compiled(rt, alloc, command, compiled, input, gate)
}

// The answer to a command, by the plan of its text and its main stream, whatever text they are of.
fn answer_compiled<G: Gate<Stage>, R: Threads + Wait + Sync, I: Source>(
    rt: &R,
    alloc: Global,
    command: &Command,
    compiled: Compiled,
    input: &mut I,
    gate: &G,
) -> Result<Answer, CliError>
    ensures answered { AnswersCompiled compiled.plan compiled.stream command.now
        (I.remaining input.old) result }
    ensures failed { result ≡ Err CliError.Read → I.has_failed input.new ≡ true }
    ensures steady { result ≢ Err CliError.Read → I.has_failed input.new ≡ I.has_failed input.old }
    ensures unread { (input.new ≡ input.old) ⊎ ((text : List ℕ)
        → IsPlanOf text (choice_of command.now) compiled.plan → ReadsInput text command.now) }
    ensures located { (text : List ℕ) → IsRefusedAt text command.now result }
{
    let Compiled { plan, stream } = compiled;
    match command {
        Command::Run {
            rounds,
            workers,
            ways: _,
            fuse: _,
            batch,
            stats: _,
            main: _,
        } => {
            drop(stream);
            let sharing = sharing_of(*workers, *batch);
            run_plan(rt, alloc, plan, *rounds, sharing, input, gate)
        }
        Command::Check { main: _ } => Ok(Answer::Checked {
            nodes: plan.graph().nodes().len(),
            channels: plan.graph().channels().len(),
        }),
        Command::Plan {
            long: false,
            sort: None,
            main: _,
        } => Ok(Answer::Planned(plan)),
        Command::Plan { sort, .. } => Ok(weighed(alloc, &stream, &plan, *sort)),
        Command::Emit { main: _ } => Ok(emitted(alloc, &plan)),
        Command::Graph {
            workers: None,
            ways: None,
            fuse: None,
            depth,
            times,
            main: _,
        } => Ok(graph_drawn(alloc, &stream, &plan, *depth, times)),
        Command::Graph { workers, .. } => {
            let workers = workers.unwrap_or(BARE_WORKERS);
            Ok(stages_drawn(alloc, &stream, &plan, workers))
        }
    }
}

/// The outcome of so many rounds of a plan by so many workers, for whatever text's plan this is.
pub fn run_plan<G: Gate<Stage>, R: Threads + Wait + Sync, I: Source>(
    rt: &R,
    alloc: Global,
    plan: Plan,
    rounds: Option<u32>,
    sharing: Sharing,
    input: &mut I,
    gate: &G,
) -> Result<Answer, CliError>
    ensures run { AnswersPlan plan rounds sharing.workers (I.remaining input.old) result }
    ensures failed { result ≡ Err CliError.Read → I.has_failed input.new ≡ true }
    ensures steady { result ≢ Err CliError.Read → I.has_failed input.new ≡ I.has_failed input.old }
    ensures unread { (input.new ≡ input.old)
        ⊎ (plan_reads plan ≡ true) }
    ensures unrefused { IsUnrefused result }
    ensures own { RunsOwn plan result }
{
    // The answer for the plan is the answer for its text.
    plans_answer_texts();
    match input_of(alloc, &plan, input) {
        Ok(numbers) => Ok(run_numbers(rt, alloc, plan, rounds, sharing, &numbers, gate)),
        Err(stop) => unread(stop),
    }
}

// What comes of an input that gives no numbers.
fn unread(stop: ReadStop) -> Result<Answer, CliError>
    ensures { result ≡ spec.unread stop }
{
    match stop {
        ReadStop::BadInput { word } => Ok(Answer::Stopped(Stop::BadInput { word })),
        ReadStop::Failed => Err(CliError::Read),
        ReadStop::NoMemory => Err(CliError::Memory),
    }
}

// The numbers of the input, where the plan's graph has a reader.
fn input_of<I: Source>(alloc: Global, plan: &Plan, input: &mut I) -> Result<Vec<i32>, ReadStop>
    ensures numbers { IsInputOf (plan_reads plan.now) (I.remaining input.old) result }
    ensures failed { result ≡ Err ReadStop.Failed → I.has_failed input.new ≡ true }
    ensures steady { result ≢ Err ReadStop.Failed
        → I.has_failed input.new ≡ I.has_failed input.old }
    ensures unread { (input.new ≡ input.old)
        ⊎ (plan_reads plan.now ≡ true) }
{
    if reads_input(plan) {
        read_numbers(alloc, input)
    } else {
        Ok(Vec::new(alloc))
    }
}

// The outcome of rounds by so many workers over this input.
fn run_numbers<G: Gate<Stage>, R: Threads + Wait + Sync>(
    rt: &R,
    alloc: Global,
    plan: Plan,
    rounds: Option<u32>,
    sharing: Sharing,
    input: &[i32],
    gate: &G,
) -> Answer
    ensures run { IsRunAnswer plan input.now rounds sharing.workers result }
    ensures batches { AreAnswerBatches plan input.now rounds sharing result }
{
    match run_shared(rt, alloc, &plan, input, rounds, sharing, gate) {
        Ok(run) => Answer::Ran(plan, run.outcome, run.batches),
        Err(refusal) => Answer::Stopped(Stop::NotRun(refusal)),
    }
}

/// By how many workers, and how many rounds at a time, a run is shared.
pub fn sharing_of(workers: u32, batch: Option<u32>) -> Sharing
    ensures workers { result.workers ≡ workers }
    ensures batching { result.batching ≡ spec.batching_of batch }
{
    let batching = match batch {
        Some(rounds) => Batching::Of(rounds),
        None => Batching::Chosen,
    };
    Sharing { workers, batching }
}

/// How the command's text is to be compiled.
pub fn options_of(alloc: Global, command: &Command) -> Result<Options, AllocError>
    ensures main { IfOk result (λ options. (choices.choice_of options).main
        ≡ (choice_of command.now).main) }
    ensures ways { IfOk result (λ options. (choices.choice_of options).ways
        ≡ (choice_of command.now).ways) }
    ensures fuse { IfOk result (λ options. (choices.choice_of options).fuse
        ≡ (choice_of command.now).fuse) }
{
    let ways = ways_of(command);
    let fuse = fuse_of(command);
    match main_name(command) {
        Some(name) => Ok(Options {
            main: Some(String::from_str(alloc, name)?),
            ways,
            fuse,
        }),
        None => Ok(Options {
            main: None,
            ways,
            fuse,
        }),
    }
}

// Among how many copies a node may be split.
fn ways_of(command: &Command) -> u32
    ensures { result ≡ (choice_of command.now).ways }
{
    match command {
        Command::Run { ways, .. } => *ways,
        Command::Graph { ways, .. } => ways.unwrap_or(BARE_WAYS),
        Command::Check { main: _ } | Command::Plan { .. } | Command::Emit { main: _ } => BARE_WAYS,
    }
}

// How many entries the list of a fused unit may have.
fn fuse_of(command: &Command) -> u32
    ensures { result ≡ (choice_of command.now).fuse }
{
    match command {
        Command::Run { fuse, .. } => *fuse,
        Command::Graph { fuse, .. } => fuse.unwrap_or(BARE_FUSE),
        Command::Check { main: _ } | Command::Plan { .. } | Command::Emit { main: _ } => BARE_FUSE,
    }
}

/// The main stream that a command names.
pub fn main_name(command: &Command) -> Option<&str>
    ensures { option_map (λ name. name.now) result ≡ (choice_of command.now).main }
{
    let main = match command {
        Command::Run { main, .. } => main,
        Command::Check { main } => main,
        Command::Plan { main, .. } => main,
        Command::Emit { main } => main,
        Command::Graph { main, .. } => main,
    };
    match main {
        Some(name) => Some(name.as_str()),
        None => None,
    }
}
