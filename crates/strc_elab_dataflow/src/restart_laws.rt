// Takes: a graph and a state from which it goes on.
// Gives: the graph restarted there, laws on its rounds and on their stages, each the contract of a
// public function with an empty body, and no code. A caller relies on `restarted_chains`: whatever
// the workers of a chain over the restarted graph have given and taken so far, what the collector
// makes of it is the outcome of the rounds from that state.

ghost use Rattle.strc_elab_dataflow.specs.Chains.{RestartedChains, RestartedIsStaging};
ghost use Rattle.strc_elab_dataflow.specs.Rates.{PushesRatesKeepsRates};
ghost use Rattle.strc_elab_dataflow.specs.Restart.{RestartedRunsAlike};
ghost use Rattle.strc_elab_dataflow.specs.RestartRounds.{RoundsAreOrders};
ghost use Rattle.strc_elab_dataflow.specs.Schedules.{RestartedRoundsAreSchedules};
ghost use Rattle.strc_elab_dataflow.specs.Solutions.{EquationsHaveSolutions, RoundsHaveSolutions};

/// A graph that goes on from a state, and the graph restarted there, come to the same.
pub fn restarted_runs_alike<Code, State, Cause, Word>()
    ensures { RestartedRunsAlike Code State Cause Word }
{}

/// A code whose firings each push at their rates keeps its rates, wherever it is restarted.
pub fn pushes_rates_keeps_rates<Code, State, Cause, Word>()
    ensures { PushesRatesKeepsRates Code State Cause Word }
{}

/// An order that is valid in the first round is valid in every later one, where the rates repeat
/// round by round and the channels balance.
pub fn rounds_are_orders<Code, State, Cause, Word>()
    ensures { RoundsAreOrders Code State Cause Word }
{}

/// So an order of a round that is valid once in the queues of a state is a schedule of the graph
/// restarted there, by the graph's rates from that state on.
pub fn restarted_rounds_are_schedules<Code, State, Cause, Word>()
    ensures { RestartedRoundsAreSchedules Code State Cause Word }
{}

/// Where only finitely many nodes fire, the equations have a solution, also where nodes fault.
pub fn equations_have_solutions<Code, State, Cause, Word>()
    ensures { EquationsHaveSolutions Code State Cause Word }
{}

/// So they have one at the counts of start-up and of any number of rounds.
pub fn rounds_have_solutions<Code, State, Cause, Word>()
    ensures { RoundsHaveSolutions Code State Cause Word }
{}

/// A restarted graph whose round is cut into stages meets what the laws on stages ask.
pub fn restarted_is_staging<Code, State, Cause, Word>()
    ensures { RestartedIsStaging Code State Cause Word }
{}

/// What the collector of a chain of workers over a restarted graph makes is the outcome of the
/// graph's rounds from its state.
pub fn restarted_chains<Code, State, Cause, Word>()
    ensures { RestartedChains Code State Cause Word }
{}
