// What fission is, as laws about all graphs, and worked rows.

ghost use Rattle.strc_fiss.specs.Laws.{PartsAreNumbered, UnitsArePieces};
ghost use Rattle.strc_fiss.specs.Rows.{FissionRow, WholeRow};

/// The parts of each node have numbers in a row, and those of the next node follow.
pub fn parts_are_numbered()
    ensures { PartsAreNumbered }
{}

/// The units after fission are those of pieces whose units before it are the old ones.
pub fn units_are_pieces()
    ensures { UnitsArePieces }
{}

/// A filter that is split in two ways: nodes, channels, units, and what each node is a part of.
pub fn fission_row()
    ensures { FissionRow }
{}

/// An identity that fires twice in a round, once in each of two units, isn't split.
pub fn whole_row()
    ensures { WholeRow }
{}
