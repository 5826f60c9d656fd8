// Planned schedules before fusion and after it.

ghost use Rattle.strc_fuse.specs.FusedLaws.{PlannedAreFusible, FusedArePlanned, FusedOrRefused};

/// A planned schedule whose units are placed has all that `fuse` keeps.
pub fn planned_are_fusible()
    ensures { PlannedAreFusible }
{}

/// And what it leaves is planned, with the same counts.
pub fn fused_are_planned()
    ensures { FusedArePlanned }
{}

/// Fusion of a graph's greedy schedule leaves a schedule, or a buffer passes the limit, and never
/// both.
pub fn fused_or_refused()
    ensures { FusedOrRefused }
{}
