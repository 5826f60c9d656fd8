// What live runs come to, as laws about all of them.

ghost use Rattle.strc_live_runs.specs.Serving.{LiveRunsAnswer, LiveRunsReadOn, LiveRunsServe};
ghost use Rattle.strc_live_runs.specs.Serving.{LiveRunsWriteByNodes, LiveStartsFault};

use strc_live_plans::{live_plans_answer, live_plans_serve, startup_faults_answer};

/// What a run has written is the answer of its rounds, whatever items come next.
pub fn live_runs_answer()
    ensures { LiveRunsAnswer }
{
    live_plans_answer();
}

/// Once fewer items wait than a round reads, the rounds that are done are all that the input
/// serves.
pub fn live_runs_serve()
    ensures { LiveRunsServe }
{
    live_plans_serve();
}

/// Another round reads some items, as many as the first one, which are numbered within 64 bits.
pub fn live_runs_read_on()
    ensures { LiveRunsReadOn }
{}

/// Past the nodes of the graph after fission nothing is written.
pub fn live_runs_write_by_nodes()
    ensures { LiveRunsWriteByNodes }
{}

/// A fault of start-up over just the items that it reads is the answer for any longer input.
pub fn live_starts_fault()
    ensures { LiveStartsFault }
{
    startup_faults_answer();
}
