// What a run of a flat graph relies on, as laws about all graphs.

ghost use Rattle.strc_elab_graph.specs.Laws.{NodesSplitAndJoin, OnlyCarriersMatter};
ghost use Rattle.strc_elab_graph.specs.Laws.{OnlyTapesGiveWords};

/// What is at a port that carries no items makes no difference to a run.
pub fn only_carriers_matter()
    ensures { OnlyCarriersMatter }
{}

/// Splitters deal and joiners weave by the formulas on places of the generic layer.
pub fn nodes_split_and_join()
    ensures { NodesSplitAndJoin }
{}

/// A node without a tape gives no words: the tapes have all words of a run.
pub fn only_tapes_give_words()
    ensures { OnlyTapesGiveWords }
{}
