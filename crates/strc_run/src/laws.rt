// What the meaning of a text stands on, as laws about all texts.

ghost use Rattle.strc_run.specs.Laws.{AcceptedOrRefused, OneStream, PlansAnswerTexts};
ghost use Rattle.strc_run.specs.Limits.{LimitsAre};

use strc_elab_stream::laws::one_flat_graph;
use strc_parse::laws::{one_program, spelled_texts_are_readable};
use strc_stage_plan::laws::{one_startup, scheduled_or_refused};
use strc_stage_plan::split_laws::transformed_or_refused;

/// No text is both accepted and refused.
pub fn accepted_or_refused()
    ensures { AcceptedOrRefused }
{
    one_program();
    spelled_texts_are_readable();
    one_flat_graph();
    one_startup();
    scheduled_or_refused();
    transformed_or_refused();
}

/// A text is accepted with one stream.
pub fn one_stream()
    ensures { OneStream }
{
    one_program();
}

/// What `run` answers for the plan that `compile` gives for a text is the answer of the stream
/// equations of the text's main stream, or why there is none.
pub fn plans_answer_texts()
    ensures { PlansAnswerTexts }
{}

/// The limits that definitions cite are these numbers.
pub fn limits_are()
    ensures { LimitsAre }
{}
