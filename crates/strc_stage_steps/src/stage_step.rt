// One step of a stage.

ghost use Rattle.std.specs.Prelude.{◌≡◌, ◌<◌, false};
ghost use Rattle.strc_stage_core.specs.Actors as core;
ghost use Rattle.strc_stage_core.specs.Actors.{Step};
ghost use Rattle.strc_stage_steps.specs.Memory.{StopsOnlyForWords, WantsWordOfStage};
ghost use Rattle.strc_stage_steps.specs.Steps.{stage_work};
ghost use Rattle.strc_stage_steps.specs.Stages.{IsStage, see, state_of};
ghost use Rattle.strc_stage_steps.specs.Stepping.{HasRun, HasWorked};

use crate::incoming_items::enter;
use crate::outgoing_items::leave;
use crate::stage::StageParts;
use crate::stage_words::hand_words;
use std::alloc::Global;
use strc_sched_outcome::stop::Stop;
use strc_stage_core::Parcel;

/// A parcel becomes another one, and the stage is a round further. It is stopped out of memory
/// only where one of its nodes has a word to give.
pub(crate) fn step_parts(stage: &mut StageParts, alloc: Global, parcel: Parcel) -> Parcel
    requires is { IsStage stage.old }
    requires open { stage.old.finished ≡ false }
    requires left { stage.old.taken < stage.old.rounds }
    ensures is { IsStage stage.new }
    ensures step { Step stage_work (see stage.old) parcel (see stage.new) result }
    ensures memory { StopsOnlyForWords (see stage.old) parcel result }
{
    let mut parcel = parcel;
    let marked = marks(stage, &parcel);
    run(stage, alloc, &mut parcel);
    stage.taken += 1;
    stage.finished = marked;
    parcel.mark_last(marked);
    parcel
}

/// Is the parcel that it makes of this one the last? The first stage marks the parcel of the last
/// round, or the first that came back stopped.
fn marks(stage: &StageParts, parcel: &Parcel) -> bool
    requires left { stage.now.taken < stage.now.rounds }
    ensures { result ≡ core.is_marked (see stage.now) parcel.now }
{
    if stage.first {
        stage.rounds - stage.taken == 1 || parcel.stopped()
    } else {
        parcel.last()
    }
}

/// A stopped parcel goes through as it is, and a stage that has made a stopped one stops all later
/// ones; else its nodes do their firings of a round.
fn run(stage: &mut StageParts, alloc: Global, parcel: &mut Parcel)
    requires is { IsStage stage.old }
    ensures is { IsStage stage.new }
    ensures run { HasRun stage.old parcel.old stage.new parcel.new }
    ensures memory { StopsOnlyForWords (see stage.old) parcel.old parcel.new }
{
    if parcel.stopped() {
        stage.stop = parcel.stop();
        return;
    }
    if let Some(stop) = &stage.stop {
        parcel.set_stop(stop.copy());
        return;
    }
    if let Some(stop) = work(stage, alloc, parcel) {
        stage.broken = true;
        parcel.empty();
        parcel.set_stop(stop.copy());
        stage.stop = Some(stop);
    }
}

/// The firings of a round: the parcel's items go into the rings, and what leaves goes into the
/// parcel. Or why they stop: out of memory only where a firing has a word to give.
fn work(stage: &mut StageParts, alloc: Global, parcel: &mut Parcel) -> Option<Stop>
    requires is { IsStage stage.old }
    requires whole { stage.old.broken ≡ false }
    ensures is { IsStage stage.new }
    ensures worked { HasWorked stage.old parcel.old result stage.new parcel.new }
    ensures memory { WantsWordOfStage (state_of stage.old) parcel.old.load result }
{
    enter(&mut stage.machine, &stage.entering, parcel);
    match stage.machine.fire_order(&stage.circuit, &stage.order) {
        Ok(()) => {
            leave(&mut stage.machine, &stage.leaving, parcel);
            hand_words(&mut stage.machine, alloc, &stage.tapes, parcel);
            None
        }
        Err(stop) => Some(stop),
    }
}
