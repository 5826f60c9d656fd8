// Takes: a graph, its queues, and an order of the firings of one round.
// Gives: laws on rounds whose firings are exchanged, fused into units, or split into copies, each
// the contract of a public function with an empty body; `specs/RoundRows.antt` has worked rows.
// A caller relies on `fission_keeps_runs`: any number of rounds of the graph after fission give the
// words, or the fault, of the graph before it.

ghost use Rattle.strc_elab_dataflow.specs.Blocks.{FissionKeepsRounds};
ghost use Rattle.strc_elab_dataflow.specs.Counted.{BlocksAreFed, OrderIsValid};
ghost use Rattle.strc_elab_dataflow.specs.Fused.{FusedCounts, FusedIsOrder};
ghost use Rattle.strc_elab_dataflow.specs.FusedUnits.{FusedUnitsAreOrder};
ghost use Rattle.strc_elab_dataflow.specs.PieceBlocks.{PiecesAreBlocks};
ghost use Rattle.strc_elab_dataflow.specs.Pieces.{FusionKeepsPieces};
ghost use Rattle.strc_elab_dataflow.specs.RoundRows.{FissionRow, FusionRow};
ghost use Rattle.strc_elab_dataflow.specs.Runs.{FissionKeepsRuns};
ghost use Rattle.strc_elab_dataflow.specs.Same.{SameRound};
ghost use Rattle.strc_elab_dataflow.specs.SplitOrder.{SplitIsOrder};
ghost use Rattle.strc_elab_dataflow.specs.Starting.{NumbersHaveOwners, StartsAgree, StaysStill};

/// Two valid orders of the same firings, from one state of the queues: both stop at a fault, or
/// both come to the same state.
pub fn same_round<Code, State, Cause, Word>()
    ensures { SameRound Code State Cause Word }
{}

/// Fusion of two neighbours in an order that is valid by counts leaves such an order.
pub fn fused_is_order<Code, State, Cause, Word>()
    ensures { FusedIsOrder Code State Cause Word }
{}

/// And the firings are the same.
pub fn fused_counts()
    ensures { FusedCounts }
{}

/// Units of a round that are valid by counts: after fusion from left to right they are so still,
/// and each node fires as often.
pub fn fused_units_are_order<Code, State, Cause, Word>()
    ensures { FusedUnitsAreOrder Code State Cause Word }
{}

/// A round of a graph and one of the graph after fission, from states that agree: they end in
/// states that agree, or at the same fault; and each firing of the new one finds its windows.
pub fn fission_keeps_rounds<Code, State, Cause, Word>()
    ensures { FissionKeepsRounds Code State Cause Word }
{}

/// An order that is valid by counts finds its windows in the queues, and comes to a state of its
/// counts; the beginning is such a state.
pub fn order_is_valid<Code, State, Cause, Word>()
    ensures { OrderIsValid Code State Cause Word }
{}

/// And each block of a round finds its windows, all of a block that is split at once.
pub fn blocks_are_fed<Code, State, Cause, Word>()
    ensures { BlocksAreFed Code State Cause Word }
{}

/// So many rounds of a graph, and of the graph after fission, from states that agree: the same
/// words, or the same fault in the same round.
pub fn fission_keeps_runs<Code, State, Cause, Word>()
    ensures { FissionKeepsRuns Code State Cause Word }
{}

/// Numbers of parts in a row are apart, and each is of one node's part.
pub fn numbers_have_owners()
    ensures { NumbersHaveOwners }
{}

/// After start-up, in which the nodes to be split kept their state and wrote nothing, the state
/// dealt out to the parts agrees with the old one.
pub fn starts_agree<Code, State, Cause, Word>()
    ensures { StartsAgree Code State Cause Word }
{}

/// A stateless node keeps the state that it starts with, and writes nothing, whatever fires.
pub fn stays_still<Code, State, Cause, Word>()
    ensures { StaysStill Code State Cause Word }
{}

/// Where a round is valid by counts, the one after fission is.
pub fn split_is_order<Code, State, Cause, Word>()
    ensures { SplitIsOrder Code State Cause Word }
{}

/// Nodes that are split may not be fused, nor their parts; then fusion after fission is fission
/// after fusion.
pub fn fusion_keeps_pieces()
    ensures { FusionKeepsPieces }
{}

/// The units before and after fission fire as the blocks of a round do.
pub fn pieces_are_blocks()
    ensures { PiecesAreBlocks }
{}

/// Four units of which fusion makes two.
pub fn fusion_row()
    ensures { FusionRow }
{}

/// A filter split in two ways: the parts are what the laws ask for, and the words are the same.
pub fn fission_row()
    ensures { FissionRow }
{}
