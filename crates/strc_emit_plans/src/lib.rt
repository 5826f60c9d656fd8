// Takes a planned graph, with its counts and its greedy schedule, and a program of its network.
// Gives laws on what the C of such a program means, each the contract of a public function with an
// empty body, and no code: the schedule's calls are its firings (Lee and Messerschmitt 1987: a
// periodic admissible sequential schedule), and the program is one of the graph. A caller relies on
// `programs_answer`: the program ends with the answer of the stream equations.
// Stands on strc_emit_network, whose programs these are, on strc_emit_program, which writes the
// calls, on strc_emit, which says what the network of a plan is, on strc_sched_laws, which says
// what is planned, and on what these stand on.
#![tactic(auto)]

ghost use Rattle.strc_emit_plans.specs.Answers.{ProgramsAnswer, ProgramsMean};
ghost use Rattle.strc_emit_plans.specs.Calls.{CallRow, OrdersAreCalled};
ghost use Rattle.strc_emit_plans.specs.Finds.{SchedulesFind};
ghost use Rattle.strc_emit_plans.specs.Firsts.{DeclaredIsFirst, DeclaredRow, FirstsShow};
ghost use Rattle.strc_emit_plans.specs.Programs.{PlansMakePrograms, PlansMakeRounds};
ghost use Rattle.strc_emit_plans.specs.Programs.{PlansMakeStartups};

/// The calls that are made of a greedy order are its firings, and fire each node as often.
pub fn orders_are_called()
    ensures { OrdersAreCalled }
{}

/// A call of three firings.
pub fn call_row()
    ensures { CallRow }
{}

/// The program of a planned graph is one of the tree's flat graph, in start-up and in rounds: each
/// node does in C what it means, and its items have their places in the arrays.
pub fn plans_make_programs()
    ensures { PlansMakePrograms }
{}

/// The calls of a planned graph's round fire each node as often as it does there; as many items
/// leave each channel as come to it, and its array has room for them.
pub fn plans_make_rounds()
    ensures { PlansMakeRounds }
{}

/// The calls of its start-up fire each node as often as it does there; what is left of a channel's
/// items was there or came and wasn't taken, and its array has room for all.
pub fn plans_make_startups()
    ensures { PlansMakeStartups }
{}

/// Each firing of a planned graph's schedule finds its windows in the queues.
pub fn schedules_find()
    ensures { SchedulesFind }
{}

/// What a program's arrays and fields are declared with is what they are to hold before its first
/// firing.
pub fn declared_is_first()
    ensures { DeclaredIsFirst }
{}

/// An item that is enqueued.
pub fn declared_row()
    ensures { DeclaredRow }
{}

/// Before its first firing a program is where the machine over queues is.
pub fn firsts_show()
    ensures { FirstsShow }
{}

/// From its first cells on a program ends as the machine over queues does: with the same words, or
/// at the same fault; it is never undefined.
pub fn programs_mean()
    ensures { ProgramsMean }
{}

/// So it ends with the answer of the stream equations.
pub fn programs_answer()
    ensures { ProgramsAnswer }
{}
