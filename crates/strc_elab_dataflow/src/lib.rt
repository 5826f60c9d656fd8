// Takes: what one firing of each kind of node means, a stream as a tree, counts of firings and
// orders of them.
// Gives: definitions that other crates cite (nodes, runs, the stream equations, orders, the answer
// of a run), and laws about them, whatever nodes compute: on whole runs (this file), on rounds that
// are cut into stages (`staging_laws`), on firings that are exchanged, fused or split
// (`rounds_laws`), and on graphs that go on from a state (`restart_laws`). A caller relies on
// `run_gives_answer`, `chain_gives_answer`, `fission_keeps_runs` and `restarted_chains`. Each law
// is the contract of a public function with an empty body; files `*Laws.antt` of specs/ state them,
// files `*Rows.antt` have worked rows.
// Stands on std alone.
#![tactic(auto)]

pub mod restart_laws;
pub mod rounds_laws;
pub mod staging_laws;

ghost use Rattle.strc_elab_dataflow.specs.Laws.{AnswerIsOne, AnySolution, ChainRunsInOrder};
ghost use Rattle.strc_elab_dataflow.specs.Laws.{FillsAreByCounts, OnlyPortsMatter};
ghost use Rattle.strc_elab_dataflow.specs.Laws.{OrderIsValidAgain};
ghost use Rattle.strc_elab_dataflow.specs.Laws.{OrdersAgree, PipelineRunsInOrder};
ghost use Rattle.strc_elab_dataflow.specs.Laws.{QueueRunGivesAnswer};
ghost use Rattle.strc_elab_dataflow.specs.Laws.{QueuesHoldTheRest, RunGivesAnswer, SolutionSolves};
ghost use Rattle.strc_elab_dataflow.specs.Laws.{SplittersAndJoiners, StateSolves};
ghost use Rattle.strc_elab_dataflow.specs.Rows.{BalanceRow, DivisionFaultRow, DownstreamFaultRow};
ghost use Rattle.strc_elab_dataflow.specs.Rows.{ExampleSplitters, FaultInLoopRow, FibonacciRow};
ghost use Rattle.strc_elab_dataflow.specs.Rows.{MatchedRow, MinimalRow, PlacesRow, StartupFaultRow};
ghost use Rattle.strc_elab_dataflow.specs.Rows.{TwoFaultsRow, WeightsRow};

/// The solution that the recursion over a stream gives solves the equations of its flat graph.
pub fn solution_solves<Code, State, Cause, Word>()
    ensures { SolutionSolves Code State Cause Word }
{}

/// The run of start-up and k rounds gives the answer of the stream equations: all words; or the
/// first round in which the equations fault, the words before it, and the fault that comes first
/// in the order.
pub fn run_gives_answer<Code, State, Cause, Word>()
    ensures { RunGivesAnswer Code State Cause Word }
{}

/// Two answers are equal, and exactly one of done, a fault in start-up and a fault in a round
/// holds.
pub fn answer_is_one<Code, State, Cause, Word>()
    ensures { AnswerIsOne Code State Cause Word }
{}

/// Two schedules of the same counts give the same words, and a fault in the same round; they differ
/// at most in the firing that they name.
pub fn orders_agree<Code, State, Cause, Word>()
    ensures { OrdersAgree Code State Cause Word }
{}

/// The run of a graph is the answer that any solutions of its flat equations give, and no other
/// outcome is.
pub fn any_solution<Code, State, Cause, Word>()
    ensures { AnySolution Code State Cause Word }
{}

/// Each queue is what has come without what was taken, and a machine over queues does what the one
/// over histories does.
pub fn queues_hold_the_rest<Code, State, Cause, Word>()
    ensures { QueuesHoldTheRest Code State Cause Word }
{}

/// The run over queues gives the answer too.
pub fn queue_run_gives_answer<Code, State, Cause, Word>()
    ensures { QueueRunGivesAnswer Code State Cause Word }
{}

/// After an order that is valid by counts the state solves the flat equations at its counts.
pub fn state_solves<Code, State, Cause, Word>()
    ensures { StateSolves Code State Cause Word }
{}

/// The length of each queue is what the counts say.
pub fn fills_are_by_counts<Code, State, Cause, Word>()
    ensures { FillsAreByCounts Code State Cause Word }
{}

/// An order that is valid in the first round is valid in every later one, where the channels
/// balance.
pub fn order_is_valid_again<Code, State, Cause, Word>()
    ensures { OrderIsValidAgain Code State Cause Word }
{}

/// What is at ports that a node doesn't have, or leaves idle, makes no difference to a run.
pub fn only_ports_matter<Code, State, Cause, Word>()
    ensures { OnlyPortsMatter Code State Cause Word }
{}

/// A stream whose nodes are in a chain, each taking what the one before gives, runs in order,
/// each node once a round.
pub fn chain_runs_in_order<Code, State, Cause, Word>()
    ensures { ChainRunsInOrder Code State Cause Word }
{}

/// A pipeline of filters that take what the one before gives runs in order, each node once a round.
pub fn pipeline_runs_in_order<Code, State, Cause, Word>()
    ensures { PipelineRunsInOrder Code State Cause Word }
{}

/// Round-robin and duplicating splitters and round-robin joiners do the formulas on places.
pub fn splitters_and_joiners<Code, State, Cause, Word>()
    ensures { SplittersAndJoiners Code State Cause Word }
{}

/// A counter and a printer: five rounds print 0 to 4.
pub fn minimal()
    ensures { MinimalRow }
{}

/// A feedback loop that adds its last two items: 1, 2, 3, 5, 8.
pub fn fibonacci()
    ensures { FibonacciRow }
{}

/// A division by zero in round 1, with the word before it.
pub fn division_fault()
    ensures { DivisionFaultRow }
{}

/// A split-join with weights 2 and 1.
pub fn weights()
    ensures { WeightsRow }
{}

/// A fault downstream of a node that itself faults only a round later.
pub fn downstream_fault()
    ensures { DownstreamFaultRow }
{}

/// Two faults in one round: the order says which one is named.
pub fn two_faults()
    ensures { TwoFaultsRow }
{}

/// A fault inside a feedback loop.
pub fn fault_in_loop()
    ensures { FaultInLoopRow }
{}

/// A fault in start-up, without words.
pub fn startup_fault()
    ensures { StartupFaultRow }
{}

/// The example's splitters and joiners are round-robin and duplicating ones.
pub fn example_splitters()
    ensures { ExampleSplitters }
{}

/// Lists dealt, woven and duplicated by weights, one of them 0.
pub fn dealt_and_woven()
    ensures { PlacesRow }
{}

/// A pipeline that meets what the law of pipelines asks.
pub fn matched_pipeline()
    ensures { MatchedRow }
{}

/// A feedback loop whose channels balance, and whose order is valid in every round.
pub fn balanced_loop()
    ensures { BalanceRow }
{}
