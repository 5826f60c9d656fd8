// What fused rounds are worth, and which schedules can be fused.

ghost use Rattle.strc_fuse.specs.Laws.{FusedUnitsStay, FusedUnitsCount, OneFusion, NothingFused};
ghost use Rattle.strc_fuse.specs.Laws.{ProgramsArePlaced, SchedulesCanBeFused};
ghost use Rattle.strc_fuse.specs.Rows.{FusedRow};

/// Placed units of an order are placed after fusion, and are an order.
pub fn fused_units_stay()
    ensures { FusedUnitsStay }
{}

/// Fusion leaves each node its number of firings.
pub fn fused_units_count()
    ensures { FusedUnitsCount }
{}

/// Units that fire some nodes are fused in one way.
pub fn one_fusion()
    ensures { OneFusion }
{}

/// With a threshold of 0 they stay as they are.
pub fn nothing_fused()
    ensures { NothingFused }
{}

/// The greedy round of a whole program has placed units.
pub fn programs_are_placed()
    ensures { ProgramsArePlaced }
{}

/// A greedy schedule of a graph's counts meets what `fuse` asks for.
pub fn schedules_can_be_fused()
    ensures { SchedulesCanBeFused }
{}

/// Four units of which fusion makes two, and the sizes of the buffers before and after it.
pub fn fused_row()
    ensures { FusedRow }
{}
