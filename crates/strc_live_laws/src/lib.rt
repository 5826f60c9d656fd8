// Takes: a circuit whose one reader reads the program's input, and an order of its nodes for a
// round.
// Gives: laws on live runs, whose items come while the run goes on, and no code. A round goes over
// just the items that it reads (`window`), and after it the machine is as if the input began there
// (`renewed`).
// The theorems to rely on: `live_goes_on`, `live_ends` and `live_faults`: what has been written so
// far is what so many rounds write over any input that begins with the items read, and a fault is
// the fault of each longer run. `specs/Rows.antt` has a worked row.
// Stands on strc_sched_laws, whose machine goes over the circuit.
#![tactic(auto)]

ghost use Rattle.strc_live_laws.specs.Live.{LiveBegins, LiveEnds, LiveFaults, LiveGoesOn};
ghost use Rattle.strc_live_laws.specs.Rounds.{StepsAreRounds};
ghost use Rattle.strc_live_laws.specs.Rows.{LiveRow};
ghost use Rattle.strc_live_laws.specs.Windows.{WindowsGoAlike};

/// An order over a piece of the input that holds what the order reads goes as over the whole input:
/// to the same fields and items on channels and the same further words, or to the same fault.
pub fn windows_go_alike()
    ensures { WindowsGoAlike }
{}

/// Rounds that went one after another begin each longer run of rounds.
pub fn steps_are_rounds()
    ensures { StepsAreRounds }
{}

/// After start-up a live run begins: the items that start-up read are read, and its words are
/// written.
pub fn live_begins()
    ensures { LiveBegins }
{}

/// A round over just its own items makes a live run one of one round more.
pub fn live_goes_on()
    ensures { LiveGoesOn }
{}

/// What a live run has written is what so many rounds write over any input that begins with the
/// items read.
pub fn live_ends()
    ensures { LiveEnds }
{}

/// A fault of a live run's next round is the fault of each longer run over any input that begins
/// with the items read.
pub fn live_faults()
    ensures { LiveFaults }
{}

/// Seven numbers, added up two by two: three rounds write a sum each, and the last number waits.
pub fn live_row()
    ensures { LiveRow }
{}
