// A live run of a text over an input that comes while it runs.

ghost use Rattle.std.specs.Prelude.{◌≡◌, ◌≢◌, ◌⊎◌, ℕ, List, Option, true, false, None, Err, IfSome};
ghost use Rattle.strc_elab_dataflow.specs.Streams as trees;
ghost use Rattle.strc_elab_graph.specs.FlatGraphs.{IsProgram};
ghost use Rattle.strc_elab_graph.specs.Graphs.{NodeCode};
ghost use Rattle.strc_run.specs.Plans.{IsPlanOf};
ghost use Rattle.strc_run.specs.Refuses.{IsTrueOf};
ghost use Rattle.strc_run.specs.Rounds.{plan_reads};
ghost use Rattle.strc_stage_plan.specs.Plans as plans;
ghost use Rattle.strc_cli_words.specs.declared.line.Command as lines;
ghost use Rattle.strc_cli.specs.Answering.{ReadsText, choice_of};
ghost use Rattle.strc_cli.specs.Executes.{device_of};
ghost use Rattle.strc_live.specs.Executes.{AnswersPlan, ExecutesLive, IsFit, IsReportOf, IsUnfit};
ghost use Rattle.strc_live.specs.Executes.{LeavesRounds};

use crate::ends::{LiveEnd, ToldEnd, end_of, tell_end};
use crate::rounds::{Tape, run_live};
use std::alloc::Global;
use strc_cli::answer::{Answer, options_of};
use strc_cli::execute::{CliError, Status, tell};
use strc_cli_input::device::{Sink, Source};
use strc_cli_output::stop::Stop;
use strc_cli_words::line::Command;
use strc_elab_graph::tapes::tape_list;
use strc_run::compile::{Plan, compile_or_where};
use strc_run::refusal::Refusal;
use strc_run::run::{RunRefusal, reads_input};
use strc_run_refusal::placed_refusal::PlacedRefusal;

/// How a live run went, and what is known of it for a person.
#[derive(Drop)]
pub struct LiveReport {
    pub result: Result<Status, CliError>,
    /// How it ended, where it wasn't cut off by a failure.
    pub end: LiveEnd,
    /// The plan that was run, where one was.
    pub plan: Option<Plan>,
}

/// Runs a text over the input while it comes: each round as soon as its numbers are there. What its
/// one tape prints is written before more of the input is read. `Read` comes where the input fails,
/// after the words of the rounds that it serves so far; `Write` where the output does, after a
/// beginning of what is written; `Memory` where there is none to tell of a refusal of the text.
pub fn execute_live<I: Source, O: Sink>(
    alloc: Global,
    text: &[u8],
    command: &Command,
    input: &mut I,
    output: &mut O,
) -> LiveReport
    ensures reported { ExecutesLive text.now command.now (I.remaining input.old)
        (I.remaining input.new) result.result result.end
        (device_of (O.contents output.old) (O.has_failed output.old))
        (device_of (O.contents output.new) (O.has_failed output.new)) }
    // Reading fails only where the input did so in this call.
    ensures failed { result.result ≡ Err CliError.Read → I.has_failed input.new ≡ true }
    ensures steady { result.result ≢ Err CliError.Read
        → I.has_failed input.new ≡ I.has_failed input.old }
    // The input is read only for a text whose stream has a reader.
    ensures unread { (input.new ≡ input.old) ⊎ ReadsText text.now (choice_of command.now) }
{
    let Ok(options) = options_of(alloc, command) else {
        return refused(alloc, PlacedRefusal::from(Refusal::NoMemory), output);
    };
    match compile_or_where(alloc, text, &options) {
        Ok(plan) => run_plan(alloc, plan, command, input, output),
        Err(placed) => refused(alloc, placed, output),
    }
}

// A live run of a plan, for whatever text this is the plan of.
fn run_plan<I: Source, O: Sink>(
    alloc: Global,
    plan: Plan,
    command: &Command,
    input: &mut I,
    output: &mut O,
) -> LiveReport
    ensures reported { (text : List ℕ) → IsPlanOf text (choice_of command.now) plan
        → ExecutesLive text command.now (I.remaining input.old) (I.remaining input.new)
        result.result result.end (device_of (O.contents output.old) (O.has_failed output.old))
        (device_of (O.contents output.new) (O.has_failed output.new)) }
    ensures failed { result.result ≡ Err CliError.Read → I.has_failed input.new ≡ true }
    ensures steady { result.result ≢ Err CliError.Read
        → I.has_failed input.new ≡ I.has_failed input.old }
    ensures unread { (input.new ≡ input.old) ⊎ (plan_reads plan ≡ true) }
{
    let mut tape = Tape::new(alloc);
    match run_fit(alloc, &plan, command, &mut tape, input, output) {
        Ok(end) => report(tell_end(alloc, &plan, tape.leaves_open, end, output), plan),
        Err(failure) => report(Err(failure), plan),
    }
}

// A live run of a plan, where it can be run so.
fn run_fit<I: Source, O: Sink>(
    alloc: Global,
    plan: &Plan,
    command: &Command,
    tape: &mut Tape,
    input: &mut I,
    output: &mut O,
) -> Result<LiveEnd, CliError>
    requires fresh { tape.old.leaves_open ≡ false }
    ensures answers { (tree : trees.Stream NodeCode)
        → IsProgram tree (plans.graph_of plan.now)
        → AnswersPlan tree plan.now command.now (I.remaining input.old) (I.remaining input.new)
        result tape.new.leaves_open
        (device_of (O.contents output.old) (O.has_failed output.old))
        (device_of (O.contents output.new) (O.has_failed output.new)) }
    ensures failed { result ≡ Err CliError.Read → I.has_failed input.new ≡ true }
    ensures steady { result ≢ Err CliError.Read → I.has_failed input.new ≡ I.has_failed input.old }
    ensures unread { (input.new ≡ input.old) ⊎ (plan_reads plan.now ≡ true) }
{
    match unfit(alloc, plan, command) {
        Some(end) => Ok(end),
        None => run_live(alloc, plan, tape, input, output),
    }
}

// What is reported of a plan.
fn report(told: Result<ToldEnd, CliError>, plan: Plan) -> LiveReport
    ensures { IsReportOf told result }
{
    match told {
        Ok(told) => LiveReport {
            result: Ok(told.status),
            end: told.end,
            plan: Some(plan),
        },
        Err(failure) => LiveReport {
            result: Err(failure),
            end: LiveEnd::Done,
            plan: Some(plan),
        },
    }
}

// A text that is refused.
fn refused<O: Sink>(alloc: Global, placed: PlacedRefusal, output: &mut O) -> LiveReport
    ensures reported { (text : List ℕ) (command : lines.Command)
        (first left : Option (List ℕ)) → IsTrueOf text (choice_of command) placed.refusal
        → ExecutesLive text command first left result.result result.end
        (device_of (O.contents output.old) (O.has_failed output.old))
        (device_of (O.contents output.new) (O.has_failed output.new)) }
    ensures unread { result.result ≢ Err CliError.Read }
{
    let answer = Answer::Stopped(Stop::Refused(placed));
    let result = tell(alloc, &answer, output);
    LiveReport {
        result,
        end: end_of(answer),
        plan: None,
    }
}

// Why a plan can't be run live, where it can't: other than one worker are asked for, or a number of
// rounds, or of rounds at a time, or its graph doesn't read the input, or it has several tapes.
fn unfit(alloc: Global, plan: &Plan, command: &Command) -> Option<LiveEnd>
    ensures unfit { IfSome result (IsUnfit command.now plan.now) }
    ensures fit { result ≡ None → IsFit command.now plan.now }
{
    if let Some(end) = barred(command) {
        return Some(end);
    }
    if !reads_input(plan) {
        return Some(LiveEnd::Stopped(Stop::NotRun(RunRefusal::RoundsNeeded)));
    }
    match tape_list(alloc, plan.graph().nodes()) {
        Ok(tapes) => {
            if tapes.len() > 1 {
                Some(LiveEnd::SeveralTapes)
            } else {
                None
            }
        }
        Err(_) => Some(LiveEnd::no_memory()),
    }
}

// Why a command bars it: it asks for other than one worker, or gives a number of rounds, or of
// rounds at a time.
fn barred(command: &Command) -> Option<LiveEnd>
    ensures barred { (plan : plans.PlanParts) → IfSome result (IsUnfit command.now plan) }
    ensures leaves { result ≡ None → LeavesRounds command.now }
{
    match command {
        Command::Run {
            rounds,
            workers,
            batch,
            ..
        } => {
            if *workers != 1 {
                Some(LiveEnd::Stopped(Stop::NotRun(RunRefusal::BadWorkers)))
            } else if rounds.is_some() {
                Some(LiveEnd::RoundsGiven)
            } else if batch.is_some() {
                Some(LiveEnd::BatchGiven)
            } else {
                None
            }
        }
        Command::Check { main: _ }
        | Command::Plan { .. }
        | Command::Emit { main: _ }
        | Command::Graph { .. } => None,
    }
}
