// Takes: the nodes of programs' graphs, those of fission included.
// Gives: laws on how they go on from any firing, and no code.
// The theorem to rely on: `graphs_go_on`: a graph of such nodes, restarted at a state, meets what
// `strc_elab_dataflow` asks.

ghost use Rattle.strc_sched_laws.specs.GoingOn.{GraphsGoOn};
ghost use Rattle.strc_sched_laws.specs.Nodes.{NodesPushRates};
ghost use Rattle.strc_sched_laws.specs.Repeats.{NodesRepeatByRounds, NodesTakeWithin};

/// Each firing of a node pushes at its rates, the nodes of fission included.
pub fn nodes_push_rates()
    ensures { NodesPushRates }
{}

/// Each firing of a node has the rates of the one a round before, the nodes of fission included.
pub fn nodes_repeat_by_rounds()
    ensures { NodesRepeatByRounds }
{}

/// No firing of a node takes more than it looks at, the nodes of fission included.
pub fn nodes_take_within()
    ensures { NodesTakeWithin }
{}

/// A graph of nodes with their rates, restarted at a state from which a round's order is valid
/// once, meets what the laws on restarted graphs ask.
pub fn graphs_go_on()
    ensures { GraphsGoOn }
{}
