// What a person reads beside the output: why a text is refused, and where a firing faulted.

ghost use Rattle.std.specs.Prelude.{◌≡◌, ◌≢◌, ◌⊎◌, ◌<◌, true, Err, IfOk, IfSome, length, position};
ghost use Rattle.std.specs.Option.{option_map};
ghost use Rattle.strc_cli.specs.Answering.{ReadsInput};
ghost use Rattle.strc_cli.specs.Executes.{Executes, device_of};
ghost use Rattle.strc_cli.specs.Explaining as spec;
ghost use Rattle.strc_cli.specs.Explaining.{ExecutesExplained, TellsOf};

use crate::answer::{Answer, answer_to, main_name};
use crate::execute::{CliError, Status, tell};
use std::alloc::Global;
use std::sync::Wait;
use std::thread::Threads;
use strc_cli_diagnostics::message::Message;
use strc_cli_input::device::{Sink, Source};
use strc_cli_messages::fault::{
    FaultSite, array_limit_message, bad_input_message, fault_message, not_run_message,
};
use strc_cli_messages::refusal::refusal_message;
use strc_cli_output::output::stop_text;
use strc_cli_output::stop::Stop;
use strc_cli_words::line::Command;
use strc_lex_names::memory::NoMemory;
use strc_run::compile::Plan;
use strc_run::run::Outcome;
use strc_run::sharing::Batches;
use strc_run_links::Gate;
use strc_stage_steps::Stage;

/// How long the word is that a refusal's line begins with, and the space after it.
const REFUSED: usize = 8;

/// A plan that was run, and the batches that its rounds went by.
#[derive(Drop)]
pub struct RunPlan {
    pub plan: Plan,
    pub batches: Batches,
}

/// How a call went, and what a person reads of it; nothing where there is nothing to say, or no
/// memory to say it.
#[derive(Drop)]
pub struct Explained {
    pub result: Result<Status, CliError>,
    pub message: Option<Message>,
    /// The code of why there is no answer, as its line has it, where there is none.
    pub code: Option<Vec<u8>>,
    /// The plan that was run, where one was, and by which batches.
    pub ran: Option<RunPlan>,
}

/// As `execute`; and where the text, its input or its run is refused, or a firing faults, what a
/// person reads of it, with its place in the text.
pub fn execute_explained<G: Gate<Stage>, R: Threads + Wait + Sync, I: Source, O: Sink>(
    rt: &R,
    alloc: Global,
    text: &[u8],
    command: &Command,
    input: &mut I,
    output: &mut O,
    gate: &G,
) -> Explained
    ensures reported { Executes text.now command.now (I.remaining input.old) result.result
        (device_of (O.contents output.old) (O.has_failed output.old))
        (device_of (O.contents output.new) (O.has_failed output.new)) }
    ensures failed { result.result ≡ Err CliError.Read → I.has_failed input.new ≡ true }
    ensures steady { result.result ≢ Err CliError.Read
        → I.has_failed input.new ≡ I.has_failed input.old }
    ensures unread { (input.new ≡ input.old) ⊎ ReadsInput text.now command.now }
    // The message of a refused text is about the part of it that breaks the rule, and that of a
    // fault about the part that faults.
    ensures explained { ExecutesExplained text.now command.now (I.remaining input.old) result
        (device_of (O.contents output.old) (O.has_failed output.old))
        (device_of (O.contents output.new) (O.has_failed output.new)) }
{
    match answer_to(rt, alloc, text, command, input, gate) {
        Ok(answer) => Explained {
            result: tell(alloc, &answer, output),
            message: message_of(alloc, text, main_name(command), &answer),
            code: code_of(alloc, &answer),
            ran: ran_of(answer),
        },
        Err(failure) => Explained {
            result: Err(failure),
            message: None,
            code: None,
            ran: None,
        },
    }
}

/// The plan that was run, where one was.
pub fn ran_of(answer: Answer) -> Option<RunPlan> {
    match answer {
        Answer::Ran(plan, _, batches) => Some(RunPlan { plan, batches }),
        _ => None,
    }
}

/// The code of why there is no answer, as its line has it; nothing where there is an answer, or
/// memory runs out.
pub fn code_of(alloc: Global, answer: &Answer) -> Option<Vec<u8>>
    ensures { IfSome result (λ code. spec.IsCodeOf answer.now code.items) }
{
    let Answer::Stopped(stop) = answer else {
        return None;
    };
    let line = stop_text(alloc, stop).ok()?;
    first_word(after_first(&line)).to_vec(alloc).ok()
}

/// What follows the first word of a refusal's line.
fn after_first(line: &[u8]) -> &[u8]
    ensures { result.now ≡ spec.after_first line.now }
{
    &line[REFUSED.min(line.len())..]
}

/// The bytes of a text up to its first space.
#[tactic(auto, using(crate::proofs::FirstWords::spaced, crate::proofs::FirstWords::unspaced))]
fn first_word(text: &[u8]) -> &[u8]
    ensures { result.now ≡ spec.first_word text.now }
{
    match first_space(text) {
        Some(end) => &text[..end],
        None => text,
    }
}

/// The place of the first space of a text.
fn first_space(text: &[u8]) -> Option<usize>
    ensures found { result ≡ position spec.is_space text.now }
    ensures within { IfSome result (λ place. place < length text.now) }
{
    text.iter().position(|byte| *byte == b' ')
}

/// What a person reads of an answer; nothing where there is nothing to say, or memory runs out.
pub fn message_of(
    alloc: Global,
    text: &[u8],
    main: Option<&str>,
    answer: &Answer,
) -> Option<Message>
    ensures { IfSome result (TellsOf text.now (option_map (λ m. m.now) main.entry) answer.now) }
{
    match explanation(alloc, text, main, answer)? {
        Ok(message) => Some(message),
        Err(NoMemory) => None,
    }
}

/// The message of an answer, where there is something to say.
fn explanation(
    alloc: Global,
    text: &[u8],
    main: Option<&str>,
    answer: &Answer,
) -> Option<Result<Message, NoMemory>>
    ensures { IfSome result (λ told. IfOk told
        (TellsOf text.now (option_map (λ m. m.now) main.entry) answer.now)) }
{
    match answer {
        Answer::Stopped(Stop::Refused(placed)) => Some(refusal_message(alloc, text, main, placed)),
        Answer::Stopped(Stop::BadInput { word }) => Some(bad_input_message(alloc, *word)),
        Answer::Stopped(Stop::NotRun(refusal)) => Some(not_run_message(alloc, *refusal)),
        Answer::Stopped(Stop::ArrayLimit { items }) => Some(array_limit_message(alloc, *items)),
        Answer::Ran(
            plan,
            Outcome::Fault {
                node,
                firing,
                round,
                cause,
                tapes: _,
            },
            _,
        ) => {
            let site = FaultSite {
                node: *node,
                firing: *firing,
                round: *round,
                cause: cause.copy(),
            };
            Some(fault_message(alloc, text, main, plan.graph(), plan.paths(), &site))
        }
        _ => None,
    }
}
