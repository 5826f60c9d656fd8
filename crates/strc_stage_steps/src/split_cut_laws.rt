// Takes: planned graphs after fission, and the units of their rounds after fusion.
// Gives: laws on such rounds cut into stages, and no code.
// The theorem to rely on: `split_cuts_are_staged`: a round that is cut between groups and units is
// staged.

ghost use Rattle.strc_stage_steps.specs.SplitCutLaws.{SplitBoundsAreACut, SplitCutsAreStaged};
ghost use Rattle.strc_stage_steps.specs.SplitCutLaws.{SplitRoundsAreRanged};
ghost use Rattle.strc_stage_steps.specs.SplitRingsRows.{SplitCutRow};

/// Groups of the nodes after fission that workers share evenly are a cut, of which each stage has
/// some node.
pub fn split_bounds_are_a_cut()
    ensures { SplitBoundsAreACut }
{}

/// The round after fission and fusion that is cut between groups and units is the firings of each
/// stage's nodes, stage by stage, and no channel goes back.
pub fn split_rounds_are_ranged()
    ensures { SplitRoundsAreRanged }
{}

/// So it is staged, as laws on graphs that go on by stages ask for.
pub fn split_cuts_are_staged()
    ensures { SplitCutsAreStaged }
{}

/// Three stages of a reader, a filter that is split in two ways, another filter and a writer.
pub fn split_cut_row()
    ensures { SplitCutRow }
{}
