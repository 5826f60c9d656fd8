// Takes a program's network, the C functions of its filters, and orders of firings.
// Gives what the program's C does (specs/Running), and laws on it, each the contract of a public
// function with an empty body, and no code: firings, orders and rounds mean what the C standard
// (ISO/IEC 9899:2011, 6.5.6, 6.8.5 and 7.24.2.2) says of addresses, loops and `memmove`.
// A caller relies on `works_fire`, `preworks_fire` and `passes_fire`: each firing does what its
// node means; on `filters_go`, `preworks_go` and `passing_go`: a firing goes as over queues; and on
// `startup_goes`, `rounds_go` and `runs_go`: where firings go as over queues, start-up, rounds and
// runs do.
// Stands on strc_emit_bodies and strc_emit_passes, whose functions and moves the nodes fire by, and
// on what these stand on.
#![tactic(auto)]

ghost use Rattle.strc_emit_runs.specs.Firings.{FiltersGo, PassingGo, PreworksGo};
ghost use Rattle.strc_emit_runs.specs.Orders.{OrdersGo, RunsGo};
ghost use Rattle.strc_emit_runs.specs.Passes.{PassesFire};
ghost use Rattle.strc_emit_runs.specs.PassingSteps.{PassingFiresTo};
ghost use Rattle.strc_emit_runs.specs.Places.{FirstPlacesAreCounted, PlacesAreCounted};
ghost use Rattle.strc_emit_runs.specs.Rounds.{FiringsMakeRounds, FiringsMakeStartup};
ghost use Rattle.strc_emit_runs.specs.Steps.{StepsShow};
ghost use Rattle.strc_emit_runs.specs.Windows.{SlidesMoveItems, WindowsMove};
ghost use Rattle.strc_emit_runs.specs.WorkSteps.{PreworkFiresTo, WorkFiresTo};
ghost use Rattle.strc_emit_runs.specs.Works.{PreworksFire, WorksFire};

/// After a slide the items that are left of a channel stand from the front of its array on, and
/// nothing else is changed.
pub fn slides_move_items()
    ensures { SlidesMoveItems }
{}

/// A firing of a filter's work in a program, from where its items stand in the arrays of the
/// channels at its ports, gives what the filter's text gives, or comes to the same fault; it is
/// never undefined.
pub fn works_fire()
    ensures { WorksFire }
{}

/// So does the firing of a prework in start-up.
pub fn preworks_fire()
    ensures { PreworksFire }
{}

/// A firing of an identity, a reader, a writer, a splitter or a joiner in a program does what the
/// node means; it is never undefined.
pub fn passes_fire()
    ensures { PassesFire }
{}

/// Items that stand in a row in an array stand so still once some are taken from the front, and
/// others come after the last one.
pub fn windows_move()
    ensures { WindowsMove }
{}

/// Where each firing of a phase goes in C as over queues, the calls of nodes' functions go as the
/// order of firings that they are of.
pub fn orders_go()
    ensures { OrdersGo }
{}

/// Where each round goes in C as over queues, so does any number of rounds: it ends with the same
/// words, or in the same round at the same fault, with the words of the rounds before.
pub fn runs_go()
    ensures { RunsGo }
{}

/// Where each firing of a round goes in C as over queues, the round does: its calls and the slides
/// of what is left in the channels.
pub fn rounds_go()
    ensures { FiringsMakeRounds }
{}

/// Where each firing of start-up goes in C as over queues, start-up does: its calls and the slides
/// of what is left in the channels.
pub fn startup_goes()
    ensures { FiringsMakeStartup }
{}

/// The place of a firing's items is the number of items before it, where an int holds that.
pub fn places_are_counted()
    ensures { PlacesAreCounted }
{}

/// So is that of the first firing of start-up, where it isn't a prework.
pub fn first_places_are_counted()
    ensures { FirstPlacesAreCounted }
{}

/// A firing in C that gives a node's items after those in its channels, and leaves its fields, its
/// words and what it read, keeps the program where the machine over queues is.
pub fn steps_show()
    ensures { StepsShow }
{}

/// A firing of a node that only passes items on leaves what it has to.
pub fn passing_fires_to()
    ensures { PassingFiresTo }
{}

/// A firing of a filter's work leaves what it has to, or comes to the fault of the filter's text.
pub fn work_fires_to()
    ensures { WorkFiresTo }
{}

/// So does the firing of a prework.
pub fn prework_fires_to()
    ensures { PreworkFiresTo }
{}

/// A firing of a filter's work goes in C as over queues, where the filter's text pushes at its
/// rate.
pub fn filters_go()
    ensures { FiltersGo }
{}

/// So does the firing of a prework.
pub fn preworks_go()
    ensures { PreworksGo }
{}

/// So does a firing of a node that only passes items on.
pub fn passing_go()
    ensures { PassingGo }
{}
