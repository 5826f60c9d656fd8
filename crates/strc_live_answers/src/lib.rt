// Takes a live run that is fed from the input of a program with a plan of one tape, or none.
// Gives laws on what the run has written, and no code.
// The theorems to rely on: `live_feeds_write`: the words of the rounds that are done are their
// answer; `live_feeds_end`, `live_feeds_reach_the_limit` and `live_feeds_fault`: where the input is
// over, no more rounds may be done or a firing faults, what is written is what the input's numbers
// lead to; `live_feeds_are_cut_off`: where a read fails, it is all that the numbers so far serve.
// Stands on strc_live_feeds, whose runs these are, on strc_live_runs, whose laws lead to the
// answer, and on strc_live_texts, which has the text of it.
#![tactic(auto)]

ghost use Rattle.strc_live_answers.specs.Laws.{LiveFeedsAreCutOff, LiveFeedsEnd, LiveFeedsFault};
ghost use Rattle.strc_live_answers.specs.Laws.{LiveFeedsFaultAtFirst, LiveFeedsReachTheLimit};
ghost use Rattle.strc_live_answers.specs.Laws.{LiveFeedsWrite};

use strc_cli_input::input_laws::given_begins_so;
use strc_live_runs::laws::{
    live_runs_answer, live_runs_serve, live_runs_write_by_nodes, live_starts_fault,
};

/// What a run has written is the answer of its rounds.
pub fn live_feeds_write()
    ensures { LiveFeedsWrite }
{
    live_runs_answer();
    live_runs_write_by_nodes();
    given_begins_so();
}

/// Once the input is over, or has a word that writes no number, before it has given what another
/// round reads, these are all its rounds.
pub fn live_feeds_end()
    ensures { LiveFeedsEnd }
{
    live_runs_answer();
    live_runs_write_by_nodes();
    live_runs_serve();
}

/// After 4,294,967,295 rounds they are, whatever comes next.
pub fn live_feeds_reach_the_limit()
    ensures { LiveFeedsReachTheLimit }
{
    live_runs_answer();
    live_runs_write_by_nodes();
    given_begins_so();
}

/// Once a read fails, they are all that the numbers so far serve.
pub fn live_feeds_are_cut_off()
    ensures { LiveFeedsAreCutOff }
{
    live_runs_answer();
    live_runs_write_by_nodes();
    live_runs_serve();
}

/// A fault of the next round, by the nodes before fission, is that of the input, whatever comes
/// next.
pub fn live_feeds_fault()
    ensures { LiveFeedsFault }
{
    live_runs_answer();
    live_runs_write_by_nodes();
    given_begins_so();
}

/// So is a fault of start-up.
pub fn live_feeds_fault_at_first()
    ensures { LiveFeedsFaultAtFirst }
{
    live_starts_fault();
    given_begins_so();
}
