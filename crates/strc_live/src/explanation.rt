// What a person reads beside the output of a live run.

use crate::ends::LiveEnd;
use crate::execute_live::LiveReport;
use std::alloc::Global;
use strc_cli_diagnostics::message::{Message, MessageKind};
use strc_cli_messages::fault::{bad_input_message, fault_message, not_run_message};
use strc_cli_messages::refusal::refusal_message;
use strc_cli_output::stop::Stop;
use strc_lex_names::memory::NoMemory;
use strc_run::run::RunRefusal;

const SEVERAL_TAPES: &[u8] = b"a live run writes one tape, and this program has several";

const ROUNDS_GIVEN: &[u8] =
    b"a live run has as many rounds as its input serves: leave --rounds out";

const WORKERS_GIVEN: &[u8] = b"a live run has one worker: leave --workers out";

const NO_READER: &[u8] = b"--live is for a program that reads its input";

const BATCH_GIVEN: &[u8] = b"a live run goes round by round: leave --batch out";

/// What is wrong, and where in the text; nothing where there is nothing to say, or no memory to say
/// it.
pub fn live_message(
    alloc: Global,
    text: &[u8],
    main: Option<&str>,
    report: &LiveReport,
) -> Option<Message> {
    match explanation(alloc, text, main, report)? {
        Ok(message) => Some(message),
        Err(NoMemory) => None,
    }
}

/// The message, where there is something to say.
fn explanation(
    alloc: Global,
    text: &[u8],
    main: Option<&str>,
    report: &LiveReport,
) -> Option<Result<Message, NoMemory>> {
    match &report.end {
        LiveEnd::Stopped(Stop::Refused(placed)) => {
            Some(refusal_message(alloc, text, main, placed))
        }
        LiveEnd::Stopped(Stop::BadInput { word }) => Some(bad_input_message(alloc, *word)),
        LiveEnd::Stopped(Stop::NotRun(RunRefusal::BadWorkers)) => {
            Some(usage_message(alloc, WORKERS_GIVEN))
        }
        LiveEnd::Stopped(Stop::NotRun(RunRefusal::RoundsNeeded)) => {
            Some(usage_message(alloc, NO_READER))
        }
        LiveEnd::Stopped(Stop::NotRun(refusal)) => Some(not_run_message(alloc, *refusal)),
        LiveEnd::Faulted(site) => {
            let plan = report.plan.as_ref()?;
            Some(fault_message(alloc, text, main, plan.graph(), plan.paths(), site))
        }
        LiveEnd::SeveralTapes => Some(usage_message(alloc, SEVERAL_TAPES)),
        LiveEnd::RoundsGiven => Some(usage_message(alloc, ROUNDS_GIVEN)),
        LiveEnd::BatchGiven => Some(usage_message(alloc, BATCH_GIVEN)),
        _ => None,
    }
}

/// What a person reads of words that a live run can't have.
fn usage_message(alloc: Global, sentence: &[u8]) -> Result<Message, NoMemory> {
    let mut message = Message::new(alloc);
    message.add(sentence)?;
    Ok(message.about(MessageKind::Usage, None))
}
