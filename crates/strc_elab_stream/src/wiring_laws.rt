// The channels of a stream, found by recursion over it, are those of its flat graph.

ghost use Rattle.strc_elab_stream.specs.Laws.{NodesAreCodes, LoopsAreByNode, WiresAreFlat};
ghost use Rattle.strc_elab_stream.specs.Laws.{WiresAreGraphs, WiresArePrograms, WiresConnect};

/// Nodes in preorder are those of the tree.
pub fn nodes_are_codes()
    ensures { NodesAreCodes }
{}

/// Each node has its outermost loop or none.
pub fn loops_are_by_node()
    ensures { LoopsAreByNode }
{}

/// The channels by recursion are those of the flat graph.
pub fn wires_are_flat()
    ensures { WiresAreFlat }
{}

/// Each of them joins ports of the nodes.
pub fn wires_are_graphs()
    ensures { WiresAreGraphs }
{}

/// A whole program's flat graph with one input at most is a program's.
pub fn wires_are_programs()
    ensures { WiresArePrograms }
{}

/// Paths along channels are those of the tree's graph, both ways.
pub fn wires_connect()
    ensures { WiresConnect }
{}
