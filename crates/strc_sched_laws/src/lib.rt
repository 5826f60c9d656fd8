// Takes a flat graph with its counts and its schedule; or a graph that goes on from a state.
// Gives laws: on schedules of one machine over rings (this file), on windows and items dealt to the
// parts of a split node (`dealing_laws`, `alike`), and on planned graphs that go on from a state
// (`parts_laws`).
// The theorems to rely on: `schedules_are_admissible`, `rings_have_room`, `ring_runs_answer`,
// `orders_go_alike`.
// Stands on strc_sched_orders, strc_startup and strc_balance, whose results make a schedule, on
// strc_rate, by which firings keep their rates, on strc_elab_graph, and on strc_elab_dataflow,
// whose laws these are instances of.
#![tactic(auto)]

pub mod dealing_laws;
pub mod laws;
pub mod parts_laws;

ghost use Rattle.strc_sched_laws.specs.Laws.{SchedulesAreAdmissible};
ghost use Rattle.strc_sched_laws.specs.RingAnswer.{RingRunsAnswer};
ghost use Rattle.strc_sched_laws.specs.RingRoom.{RingsHaveRoom};
ghost use Rattle.strc_sched_laws.specs.NodeSteps.{NodesStepAlike};
ghost use Rattle.strc_sched_laws.specs.Simulation.{OrdersGoAlike, StepsGoAlike};

/// The schedule of a program's graph is admissible (Lee and Messerschmitt 1987: a periodic
/// admissible sequential schedule), and what its run gives is the answer of the stream equations.
pub fn schedules_are_admissible()
    ensures { SchedulesAreAdmissible }
{}

/// The run of a program's nodes over rings, each as large as the schedule says, gives the answer of
/// the stream equations.
pub fn ring_runs_answer()
    ensures { RingRunsAnswer }
{}

/// Between any two firings of that run each ring has its channel's size and holds just the items
/// of the channel's queue; the next firing finds what it looks at, and there is room for what it
/// pushes.
pub fn rings_have_room()
    ensures { RingsHaveRoom }
{}

/// A step of any node over rings that hold its queues, those of fission included, is its firing
/// over the queues.
pub fn nodes_step_alike()
    ensures { NodesStepAlike }
{}

/// In any graph by channels, planned or not, a node's next step over rings that hold the queues
/// goes as its firing over the queues.
pub fn steps_go_alike()
    ensures { StepsGoAlike }
{}

/// So does an order of nodes.
pub fn orders_go_alike()
    ensures { OrdersGoAlike }
{}
