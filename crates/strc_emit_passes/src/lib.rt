// Takes a network of channels.
// Gives laws on the C of its nodes that only pass items on, each the contract of a public function
// with an empty body, and no code: moves mean what the C standard (ISO/IEC 9899:2011, 6.5.6, 6.5.16
// and 7.24.2.1) says of places in arrays, of assignment and of `memcpy`.
// A caller relies on both: what is written is moves (`moves_are_spelled`), and these do what the
// node means (`passing_nodes_fire`).
// Stands on strc_emit_moves, whose text it speaks of, on strc_emit_c, whose memory that works on,
// and on strc_elab_graph and strc_elab_dataflow, which say what nodes mean.
#![tactic(auto)]

ghost use Rattle.strc_emit_passes.specs.Passing.{PassingNodesFire};
ghost use Rattle.strc_emit_passes.specs.Texts.{MovesAreSpelled};

/// The text that is written for a firing of a node that only passes items on is that of its moves.
pub fn moves_are_spelled()
    ensures { MovesAreSpelled }
{}

/// The moves of a firing of an identity, a reader, a writer, a splitter or a joiner do what the
/// node means: from arrays with the items that it looks at, the items that it gives come to their
/// places, its words are printed, and nothing else is changed; it is never undefined.
pub fn passing_nodes_fire()
    ensures { PassingNodesFire }
{}
