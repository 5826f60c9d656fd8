// A run of a text of which some tapes go to files.

ghost use Rattle.std.specs.Prelude.{◌≡◌, ◌≢◌, ◌⊎◌, [], true, Err, IfOk, IfSome, map};
ghost use Rattle.std.specs.Option.{option_map};
ghost use Rattle.strc_cli.specs.Answering.{ReadsInput};
ghost use Rattle.strc_cli.specs.Executes.{device_of};
ghost use Rattle.strc_cli_words.specs.Outs.{names_of};
ghost use Rattle.strc_out_files.specs.Executes as spec;
ghost use Rattle.strc_out_files.specs.Executes.{ExecutesOut, TellsNoTape, TellsOfOut, TellsOut};
ghost use Rattle.strc_out_files.specs.Executes.{TellsParted};

use crate::answer::{OutAnswer, answer_out};
use crate::message::no_tape_message;
use crate::texts::{parted_text, texts_of};
use std::alloc::{AllocError, Global};
use std::sync::Wait;
use std::thread::Threads;
use strc_cli::answer::{Answer, main_name};
use strc_cli::execute::{CliError, Status, tell, write_all};
use strc_cli::explanation::{Explained, RunPlan, code_of, message_of, ran_of};
use strc_cli_diagnostics::message::Message;
use strc_cli_input::device::{Sink, Source};
use strc_cli_words::line::{Command, Out};
use strc_run::compile::Plan;
use strc_run::run::Outcome;
use strc_run_links::Gate;
use strc_stage_steps::Stage;

/// How a call went of which tapes go to files.
#[derive(Drop)]
pub struct OutReport {
    pub explained: Explained,
    /// The text of each tape that goes to a file, in the order of the names; none where the run has
    /// no answer.
    pub texts: Vec<Vec<u8>>,
}

/// What was told of an answer: how writing went, and the texts for the files.
#[derive(Drop)]
struct ToldOut {
    result: Result<Status, CliError>,
    texts: Vec<Vec<u8>>,
}

/// As `execute_explained`, but that the tapes that are named aren't written to the output: their
/// words are given. A name that no tape has is refused before the input is read.
pub fn execute_out<G: Gate<Stage>, R: Threads + Wait + Sync, I: Source, O: Sink>(
    rt: &R,
    alloc: Global,
    text: &[u8],
    command: &Command,
    outs: &[Out],
    input: &mut I,
    output: &mut O,
    gate: &G,
) -> OutReport
    ensures reported { ExecutesOut text.now command.now (map names_of outs.now)
        (I.remaining input.old) result (device_of (O.contents output.old) (O.has_failed output.old))
        (device_of (O.contents output.new) (O.has_failed output.new)) }
    ensures failed { result.explained.result ≡ Err CliError.Read → I.has_failed input.new ≡ true }
    ensures steady { result.explained.result ≢ Err CliError.Read
        → I.has_failed input.new ≡ I.has_failed input.old }
    ensures unread { (input.new ≡ input.old) ⊎ ReadsInput text.now command.now }
{
    match answer_out(rt, alloc, text, command, outs, input, gate) {
        Ok(answer) => {
            let told = tell_out(alloc, &answer, output);
            let message = out_message(alloc, text, main_name(command), &answer);
            let explained = Explained {
                result: told.result,
                message,
                code: out_code(alloc, &answer),
                ran: out_ran(answer),
            };
            OutReport {
                explained,
                texts: told.texts,
            }
        }
        Err(failure) => OutReport {
            explained: Explained {
                result: Err(failure),
                message: None,
                code: None,
                ran: None,
            },
            texts: Vec::new(alloc),
        },
    }
}

// Writes what is reported of an answer, and gives the texts for the files.
fn tell_out<O: Sink>(alloc: Global, answer: &OutAnswer, output: &mut O) -> ToldOut
    ensures { TellsOut answer.now result
        (device_of (O.contents output.old) (O.has_failed output.old))
        (device_of (O.contents output.new) (O.has_failed output.new)) }
{
    match answer {
        OutAnswer::Answered {
            answer: Answer::Ran(plan, outcome, _),
            given,
        } => tell_parted(alloc, plan, outcome, given, output),
        OutAnswer::Answered { answer, .. } => told(alloc, tell(alloc, answer, output)),
        OutAnswer::NoTape(no_tape) => told(alloc, tell_no_tape(alloc, &no_tape.name, output)),
    }
}

// How writing went where nothing goes to files.
fn told(alloc: Global, outcome: Result<Status, CliError>) -> ToldOut
    ensures outcome { result.result ≡ outcome }
    ensures texts { result.texts.items ≡ [] }
{
    ToldOut {
        result: outcome,
        texts: Vec::new(alloc),
    }
}

// Writes the tapes that stay, and gives those that go to files.
fn tell_parted<O: Sink>(
    alloc: Global,
    plan: &Plan,
    outcome: &Outcome,
    given: &[usize],
    output: &mut O,
) -> ToldOut
    ensures { TellsParted plan.now outcome.now given.now result
        (device_of (O.contents output.old) (O.has_failed output.old))
        (device_of (O.contents output.new) (O.has_failed output.new)) }
{
    let Ok(texts) = texts_of(alloc, outcome, given) else {
        return told(alloc, Err(CliError::Memory));
    };
    let Ok(text) = parted_text(alloc, plan.graph(), outcome, given) else {
        return told(alloc, Err(CliError::Memory));
    };
    let result = match write_all(output, &text) {
        Ok(()) => Ok(outcome_status(outcome)),
        Err(failure) => Err(failure),
    };
    ToldOut { result, texts }
}

// The status of a run's outcome.
fn outcome_status(outcome: &Outcome) -> Status
    ensures { result ≡ spec.outcome_status outcome.now }
{
    match outcome {
        Outcome::Done(_) => Status::Done,
        Outcome::Fault { .. } => Status::Fault,
    }
}

// Writes that no tape has a name.
fn tell_no_tape<O: Sink>(alloc: Global, name: &[u8], output: &mut O) -> Result<Status, CliError>
    ensures { TellsNoTape name.now result
        (device_of (O.contents output.old) (O.has_failed output.old))
        (device_of (O.contents output.new) (O.has_failed output.new)) }
{
    let Ok(line) = no_tape_line(alloc, name) else {
        return Err(CliError::Memory);
    };
    write_all(output, &line)?;
    Ok(Status::Refused)
}

// The line of a name that no tape has.
fn no_tape_line(alloc: Global, name: &[u8]) -> Result<Vec<u8>, AllocError>
    ensures { IfOk result (λ line. line.items ≡ spec.no_tape_line name.now) }
{
    let mut line = b"refused S11 NoTape name ".to_vec(alloc)?;
    line.extend_from_slice(name)?;
    line.extend_from_slice(b"\n")?;
    Ok(line)
}

// What a person reads of an answer; nothing where there is nothing to say, or memory runs out.
fn out_message(
    alloc: Global,
    text: &[u8],
    main: Option<&str>,
    answer: &OutAnswer,
) -> Option<Message>
    ensures { IfSome result
        (TellsOfOut text.now (option_map (λ m. m.now) main.entry) answer.now) }
{
    match answer {
        OutAnswer::Answered { answer, .. } => message_of(alloc, text, main, answer),
        OutAnswer::NoTape(no_tape) => no_tape_message(alloc, no_tape).ok(),
    }
}

// The code of why there is no answer, as its line has it, where there is none.
fn out_code(alloc: Global, answer: &OutAnswer) -> Option<Vec<u8>> {
    match answer {
        OutAnswer::Answered { answer, .. } => code_of(alloc, answer),
        OutAnswer::NoTape(_) => None,
    }
}

// The plan that was run, where one was.
fn out_ran(answer: OutAnswer) -> Option<RunPlan> {
    match answer {
        OutAnswer::Answered { answer, .. } => ran_of(answer),
        OutAnswer::NoTape(_) => None,
    }
}
