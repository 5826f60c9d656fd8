// Takes a graph of nodes and a program whose network is the graph's.
// Gives laws on how the C of such a program fires, each the contract of a public function with an
// empty body, and no code: a firing sees the fronts of its node's queues (Lee and Messerschmitt
// 1987: samples on an arc are a first-in-first-out queue).
// A caller relies on `network_runs`: any number of rounds go in C as over queues, since each firing
// does (`network_firings`); and on `network_starts`: so does start-up.
// Stands on strc_emit_runs, whose machine the firings are of, on strc_sched_laws, which says what
// rates they keep, and on what these stand on.
#![tactic(auto)]

ghost use Rattle.strc_emit_network.specs.Firings.{NetworkFirings, ReadersReadNext, TakesAreThere};
ghost use Rattle.strc_emit_network.specs.Later.{LaterRatesAreSame, WorksFireLater};
ghost use Rattle.strc_emit_network.specs.Ranges.{CodesStayInRange};
ghost use Rattle.strc_emit_network.specs.Readers.{ReadersRead};
ghost use Rattle.strc_emit_network.specs.Runs.{NetworkRuns, NetworkStarts};
ghost use Rattle.strc_emit_network.specs.Seen.{FrontsAreSeen, WindowsAreSeen};
ghost use Rattle.strc_emit_network.specs.Taken.{RoundsTake};

/// What a firing sees is at the fronts of its node's queues.
pub fn fronts_are_seen()
    ensures { FrontsAreSeen }
{}

/// Where the queues hold a firing's windows, it sees them whole.
pub fn windows_are_seen()
    ensures { WindowsAreSeen }
{}

/// A firing after the first one, or of a filter without a prework, is one of the work.
pub fn works_fire_later()
    ensures { WorksFireLater }
{}

/// Such a firing has the rates of a node's later ones.
pub fn later_rates_are_same()
    ensures { LaterRatesAreSame }
{}

/// What a firing takes is in its node's queues.
pub fn takes_are_there()
    ensures { TakesAreThere }
{}

/// The program's reader sees the next number of the input.
pub fn readers_read_next()
    ensures { ReadersReadNext }
{}

/// Each firing of a graph's program, in start-up or a round, goes in C as over queues: it leaves
/// the program where the machine over queues is, or comes to the same fault; it is never undefined.
pub fn network_firings()
    ensures { NetworkFirings }
{}

/// The program's reader is a node that takes the program's input.
pub fn readers_read()
    ensures { ReadersRead }
{}

/// Any number of rounds of a graph's program, whose calls are those of a round, end with the words,
/// or in the same round at the same fault, that they end with over queues.
pub fn network_runs()
    ensures { NetworkRuns }
{}

/// Start-up of a graph's program, whose calls are those of its order, leaves the program where the
/// machine over queues is, ready for the first round, or comes to the same fault.
pub fn network_starts()
    ensures { NetworkStarts }
{}

/// A round takes as many items of a channel as its firings do, each as many as the later ones.
pub fn rounds_take()
    ensures { RoundsTake }
{}

/// Where the rates of a filter of known names are accepted and each peek of a body is closed, the
/// code of that body looks at no item past its window, and pops and pushes at most its rates.
pub fn codes_stay_in_range()
    ensures { CodesStayInRange }
{}
