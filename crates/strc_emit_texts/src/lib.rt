// Takes an accepted text, its plan, and the text of C that is written for this.
// Gives laws on what the C means, each the contract of a public function with an empty body, and no
// code: the C of a text does what a run of the text does.
// The theorems to rely on: `emitted_texts_answer`: the C spells a program that ends, after any
// number of rounds that its input serves, with the answer of the stream equations of the text's
// main stream, or at its fault, and is never undefined; `emitted_texts_run_alike`: so a run of the
// text and one of the C tell one answer.
// Stands on strc_emit_resolved, whose laws on plans these are for texts, on strc_run, which says
// what texts are accepted and with what plan, and on what these stand on.
#![tactic(auto)]

ghost use Rattle.strc_emit_texts.specs.Orders.{UnchangedPlansKeepOrder};
ghost use Rattle.strc_emit_texts.specs.Runs.{EmittedTextsRunAlike, FaultRow, SameEndsPrintAlike};
ghost use Rattle.strc_emit_texts.specs.Texts.{EmittedTextsAnswer};

use strc_run::laws::one_stream;

/// Where nothing is split or fused, the firings of a plan's round are those of its schedule, in the
/// same order.
pub fn unchanged_plans_keep_order()
    ensures { UnchangedPlansKeepOrder }
{}

/// The C of a text's plan means what the text's main stream means.
pub fn emitted_texts_answer()
    ensures { EmittedTextsAnswer }
{}

/// A run of a text and one of its C come to the same words, or to the same fault.
pub fn emitted_texts_run_alike()
    ensures { EmittedTextsRunAlike }
{
    // A text has one stream.
    one_stream();
}

/// Then the run's tapes have the words that the C prints, and their fault is one.
pub fn same_ends_print_alike()
    ensures { SameEndsPrintAlike }
{}

/// A fault in start-up, beside the end of a program with the same fault, and with that of another
/// firing.
pub fn fault_row()
    ensures { FaultRow }
{}
