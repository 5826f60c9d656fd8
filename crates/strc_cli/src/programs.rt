// The C of a text's plan.

ghost use Rattle.strc_cli.specs.Programs.{IsProgramGiven};

use crate::answer::Answer;
use std::alloc::Global;
use strc_cli_output::stop::Stop;
use strc_emit::emit::{EmitError, emit};
use strc_emit_texts::emitted_texts_answer;
use strc_run::compile::Plan;
use strc_run::refusal::Refusal;
use strc_run_refusal::placed_refusal::PlacedRefusal;

/// The C of a plan.
pub(crate) fn emitted(alloc: Global, plan: &Plan) -> Answer
    ensures { IsProgramGiven plan.now result }
{
    // The C of a plan answers the text that the plan is of.
    plan.known();
    emitted_texts_answer();
    match emit(alloc, plan) {
        Ok(program) => Answer::Emitted(program),
        Err(EmitError::ArrayLimit { items }) => Answer::Stopped(Stop::ArrayLimit { items }),
        Err(EmitError::NoMemory) => {
            Answer::Stopped(Stop::Refused(PlacedRefusal::from(Refusal::NoMemory)))
        }
    }
}
