// What holds of every stream.

ghost use Rattle.strc_elab_stream.specs.Dealing.{NodesDeal};
ghost use Rattle.strc_elab_stream.specs.OneGraph.{HasOneGraph};

/// The flat graph of a stream is one: its nodes and its channels follow from the stream.
pub fn one_flat_graph()
    ensures { HasOneGraph }
{}

/// The splitters and joiners of well-typed streams move items.
pub fn nodes_deal()
    ensures { NodesDeal }
{}
