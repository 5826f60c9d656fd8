// Stages and collectors as the core sees them.

use strc_stage_core::Actor;

/// A stage: each of its steps is one of the core's.
pub trait StageActor: Actor {
    ghost use Rattle.std.specs.Prelude.{◌≡◌, ◌<◌, true, false};
    ghost use Rattle.strc_stage_core.specs.Actors.{Stage, Step};
    ghost use Rattle.strc_sched_outcome.specs.declared.stop.Stop.{Stop};
    ghost use Rattle.strc_stage_core.specs.Parcels.{ParcelView};
    ghost use Rattle.strc_stage_steps.specs.Steps.{StageState, stage_work};

    /// What the core sees of it.
    ghost see: { Self → Stage StageState Stop };

    /// Each of its steps is one of the core's.
    ghost steps: { (stage : Self) (parcel : ParcelView) (later : Self) (result : ParcelView)
        → Self.does stage parcel later result
        → Step stage_work (see stage) parcel (see later) result };

    /// One that the core calls unfinished may step while it has rounds left.
    ghost goes: { (stage : Self) → (see stage).finished ≡ false
        → (see stage).taken < (see stage).rounds → Self.has_finished stage ≡ false };

    /// One that the core calls finished may not.
    ghost ends: { (stage : Self) → (see stage).finished ≡ true
        → Self.has_finished stage ≡ true };
}

/// A collector: each of its steps is one of the core's.
pub trait CollectorActor: Actor {
    ghost use Rattle.std.specs.Prelude.{◌≡◌, ◌<◌, true, false};
    ghost use Rattle.strc_stage_core.specs.Actors.{Collector, Collects};
    ghost use Rattle.strc_sched_outcome.specs.declared.stop.Stop.{Stop};
    ghost use Rattle.strc_stage_core.specs.Parcels.{ParcelView};
    ghost use Rattle.strc_stage_steps.specs.Steps.{Gathered, stage_work};

    /// What the core sees of it.
    ghost sees: { Self → Collector Gathered Stop };

    /// Each of its steps is one of the core's.
    ghost collects: { (collector : Self) (parcel : ParcelView) (later : Self)
        (result : ParcelView) → Self.does collector parcel later result
        → Collects stage_work (sees collector) parcel (sees later) result };

    /// One that the core calls unfinished may step while it has rounds left.
    ghost goes: { (collector : Self) → (sees collector).finished ≡ false
        → (sees collector).taken < (sees collector).rounds
        → Self.has_finished collector ≡ false };

    /// One that the core calls finished may not.
    ghost ends: { (collector : Self) → (sees collector).finished ≡ true
        → Self.has_finished collector ≡ true };
}
