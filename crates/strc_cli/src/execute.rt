// From the bytes of a text to the bytes of the output.

ghost use Rattle.std.specs.Prelude.{◌≡◌, ◌≢◌, ◌⊎◌, true, Err, IfOk, IfSome};
ghost use Rattle.strc_cli.specs.Answering.{ReadsInput};
ghost use Rattle.strc_cli.specs.Statuses.{status_number};
ghost use Rattle.strc_cli.specs.Executes as spec;
ghost use Rattle.strc_cli.specs.Executes.{Executes, TellsAnswer, Writes, device_of};

use crate::answer::{Answer, answer_to};
use std::alloc::{AllocError, Global};
use std::sync::Wait;
use std::thread::Threads;
use strc_cli_input::device::{Sink, Source};
use strc_cli_output::outcome::outcome_text;
use strc_cli_output::output::{check_text, plan_text, stop_text};
use strc_cli_output::stop::Stop;
use strc_cli_words::line::Command;
use strc_run::refusal::Refusal;
use strc_run::run::{Outcome, RunRefusal};
use strc_run_links::Gate;
use strc_stage_steps::Stage;
use thiserror::Error;

/// How a call of `execute` went: what the program's exit status tells.
#[derive(Clone, Copy, PartialEq, Eq)]
pub enum Status {
    /// All rounds were run, or what was asked of the text was written.
    Done,
    /// The text, or a run of it, was refused.
    Refused,
    /// A firing faulted.
    Fault,
    /// Memory ran out, or a thread was refused.
    NoMemory,
}

impl Status {
    /// The number of the status.
    pub fn number(self) -> u8
        ensures { result ≡ status_number self }
    {
        match self {
            Status::Done => 0,
            Status::Refused => 2,
            Status::Fault => 3,
            Status::NoMemory => 4,
        }
    }
}

/// Why nothing could be reported.
#[derive(Clone, Copy, Debug, PartialEq, Eq, Error)]
pub enum CliError {
    /// The input failed. Nothing was written.
    #[error("the input can't be read")]
    Read,
    /// The output failed. A beginning of the output may have gone out.
    #[error("the output can't be written")]
    Write,
    /// Memory ran out. Nothing was written.
    #[error("out of memory")]
    Memory,
}

/// Runs a program's text over the input, and writes what it prints; or writes how large its graph
/// is, or how often its nodes fire; or one line that names a refusal. Each step of a stage is the
/// gate's.
pub fn execute<G: Gate<Stage>, R: Threads + Wait + Sync, I: Source, O: Sink>(
    rt: &R,
    alloc: Global,
    text: &[u8],
    command: &Command,
    input: &mut I,
    output: &mut O,
    gate: &G,
) -> Result<Status, CliError>
    ensures reported { Executes text.now command.now (I.remaining input.old) result
        (device_of (O.contents output.old) (O.has_failed output.old))
        (device_of (O.contents output.new) (O.has_failed output.new)) }
    // Reading fails only where the input did so in this call.
    ensures failed { result ≡ Err CliError.Read → I.has_failed input.new ≡ true }
    ensures steady { result ≢ Err CliError.Read → I.has_failed input.new ≡ I.has_failed input.old }
    // The input is read only for a run of a text whose stream has a reader.
    ensures unread { (input.new ≡ input.old) ⊎ ReadsInput text.now command.now }
{
    match answer_to(rt, alloc, text, command, input, gate) {
        Ok(answer) => tell(alloc, &answer, output),
        Err(failure) => Err(failure),
    }
}

/// Writes what is reported of an answer.
pub fn tell<O: Sink>(alloc: Global, answer: &Answer, output: &mut O) -> Result<Status, CliError>
    ensures { TellsAnswer answer.now result (device_of (O.contents output.old)
        (O.has_failed output.old))
        (device_of (O.contents output.new) (O.has_failed output.new)) }
{
    if let Some(line) = memory_line(answer) {
        write_all(output, line)?;
        return Ok(Status::NoMemory);
    }
    let Ok(text) = answer_text(alloc, answer) else {
        return Err(CliError::Memory);
    };
    write_all(output, &text)?;
    Ok(answer_status(answer))
}

// The line that reports out of memory, which takes none.
fn memory_line(answer: &Answer) -> Option<&'static [u8]>
    ensures { IfSome result (λ line. (line.now ≡ spec.answer_text answer.now)
        × (spec.answer_status answer.now ≡ Status.NoMemory)) }
{
    match answer {
        Answer::Stopped(Stop::Refused(placed)) => match &placed.refusal {
            Refusal::NoMemory => Some(b"refused E25 NoMemory\n"),
            _ => None,
        },
        Answer::Stopped(Stop::NotRun(RunRefusal::NoMemory)) => Some(b"refused S3 NoMemory\n"),
        _ => None,
    }
}

// The text of an answer.
fn answer_text(alloc: Global, answer: &Answer) -> Result<Vec<u8>, AllocError>
    ensures { IfOk result (λ text. text.items ≡ spec.answer_text answer.now) }
{
    match answer {
        Answer::Ran(plan, outcome, _) => outcome_text(alloc, plan.graph(), outcome),
        Answer::Checked { nodes, channels } => check_text(alloc, *nodes, *channels),
        Answer::Planned(plan) => plan_text(alloc, plan),
        Answer::Weighed(lines) => lines.to_vec(alloc),
        Answer::Drawn(picture) => picture.to_vec(alloc),
        Answer::Emitted(program) => program.to_vec(alloc),
        Answer::Stopped(stop) => stop_text(alloc, stop),
    }
}

/// The status of an answer.
pub fn answer_status(answer: &Answer) -> Status
    ensures { result ≡ spec.answer_status answer.now }
{
    match answer {
        Answer::Ran(_, Outcome::Done(_), _) => Status::Done,
        Answer::Ran(_, Outcome::Fault { .. }, _) => Status::Fault,
        Answer::Checked { .. } => Status::Done,
        Answer::Planned(_) => Status::Done,
        Answer::Weighed(_) => Status::Done,
        Answer::Drawn(_) => Status::Done,
        Answer::Emitted(_) => Status::Done,
        Answer::Stopped(Stop::Refused(placed)) => match &placed.refusal {
            Refusal::NoMemory => Status::NoMemory,
            _ => Status::Refused,
        },
        Answer::Stopped(Stop::BadInput { .. }) => Status::Refused,
        Answer::Stopped(Stop::NotRun(RunRefusal::NoMemory)) => Status::NoMemory,
        Answer::Stopped(Stop::NotRun(RunRefusal::NoWorker)) => Status::NoMemory,
        Answer::Stopped(Stop::NotRun(_)) => Status::Refused,
        Answer::Stopped(Stop::ArrayLimit { .. }) => Status::Refused,
    }
}

/// Writes all bytes, however few the output takes at a time.
pub fn write_all<O: Sink>(output: &mut O, bytes: &[u8]) -> Result<(), CliError>
    ensures { Writes bytes.now result (device_of (O.contents output.old) (O.has_failed output.old))
        (device_of (O.contents output.new) (O.has_failed output.new)) }
{
    let mut rest = bytes;
    while !rest.is_empty() {
        match output.write(rest) {
            Ok(count) => rest = &rest[count..],
            Err(_) => return Err(CliError::Write),
        }
    }
    Ok(())
}
