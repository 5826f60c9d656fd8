// Laws on circuits.

ghost use Rattle.strc_sched_rings.specs.Parts.{PartsArePartCircuits};

/// A part of a graph's circuit is the circuit of that part of the graph.
pub fn parts_are_part_circuits()
    ensures { PartsArePartCircuits }
{}
