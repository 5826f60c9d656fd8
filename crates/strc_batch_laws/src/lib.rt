// Takes: a graph whose order of a round is cut into stages, and a schedule of its rounds.
// Gives: laws on batches of rounds: each stage's segment so many times over, whatever nodes
// compute. Each law is the contract of a public function with an empty body. A caller relies on
// `batches_are_rounds` and `rounds_are_batches`: a run by batches comes to its end just where the
// run round by round does, with the same words; on `batches_resume`, by which batches go on from a
// state; and on `batches_fit` and `batches_fill_alike`: how large buffers have to be for one batch,
// and so for all. `specs/Rows.antt` has worked rows.
// Stands on strc_elab_dataflow.
#![tactic(auto)]

ghost use Rattle.strc_batch_laws.specs.Again.{BatchesResume};
ghost use Rattle.strc_batch_laws.specs.Batches.{BatchIsOrder};
ghost use Rattle.strc_batch_laws.specs.Fills.{BatchesFillAlike};
ghost use Rattle.strc_batch_laws.specs.Fits.{BatchesFit};
ghost use Rattle.strc_batch_laws.specs.Rows.{BatchesRow, BatchRow, BatchUnitsRow};
ghost use Rattle.strc_batch_laws.specs.Runs.{BatchesAnswer, BatchesAreRounds, BatchesAreSchedule};
ghost use Rattle.strc_batch_laws.specs.Runs.{RoundsAreBatches};
ghost use Rattle.strc_batch_laws.specs.Units.{BatchUnitsAreBatch};

/// Where a round's order is valid so many times in a row, the batch of these rounds is valid once:
/// each firing finds its windows. It has the rounds' firings and the same stages.
pub fn batch_is_order<Code, State, Cause, Word>()
    ensures { BatchIsOrder Code State Cause Word }
{}

/// A schedule of rounds gives one by batches: start-up and the rounds that are no whole batch, and
/// then the batches.
pub fn batches_are_schedule<Code, State, Cause, Word>()
    ensures { BatchesAreSchedule Code State Cause Word }
{}

/// Where a run by batches comes to its end, its words are the answer of the stream equations for
/// all the rounds.
pub fn batches_answer<Code, State, Cause, Word>()
    ensures { BatchesAnswer Code State Cause Word }
{}

/// Where batches from any state come to their end, the rounds from there do, with the same words.
pub fn batches_are_rounds<Code, State, Cause, Word>()
    ensures { BatchesAreRounds Code State Cause Word }
{}

/// And where the rounds come to their end, so do the batches: they stop only at a fault of the
/// rounds.
pub fn rounds_are_batches<Code, State, Cause, Word>()
    ensures { RoundsAreBatches Code State Cause Word }
{}

/// After the rounds that are no whole batch the batches are a schedule of the graph that goes on
/// from there, and as many items wait as the rounds' counts say.
pub fn batches_resume<Code, State, Cause, Word>()
    ensures { BatchesResume Code State Cause Word }
{}

/// In each batch as many items wait on a channel as in a batch fired first, so buffers for one are
/// large enough for all.
pub fn batches_fill_alike<Code, State, Cause, Word>()
    ensures { BatchesFillAlike Code State Cause Word }
{}

/// A buffer that is large enough for a round is large enough for a batch, with room for what the
/// channel's source pushes in the further rounds where its ends are in different stages.
pub fn batches_fit<Code, State, Cause, Word>()
    ensures { BatchesFit Code State Cause Word }
{}

/// The units of a batch, a group of a round's units each, fire the batch's order.
pub fn batch_units_are_batch()
    ensures { BatchUnitsAreBatch }
{}

/// A source and a printer, four rounds at a time.
pub fn batch_row()
    ensures { BatchRow }
{}

/// Five rounds of them by batches of two.
pub fn batches_row()
    ensures { BatchesRow }
{}

/// The units of a batch, with a loop's units as one.
pub fn batch_units_row()
    ensures { BatchUnitsRow }
{}
