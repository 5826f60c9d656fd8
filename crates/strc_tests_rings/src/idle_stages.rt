// A toy stage, which hands parcels on empty.

ghost use Rattle.std.specs.Prelude.{◌≡◌, ◌<◌, cond, ◌||◌, is_some};
ghost use Rattle.strc_stage_core.specs.Actors.{or_else};
ghost use Rattle.strc_stage_core.specs.Parcels.{parcel, emptied};
ghost use Rattle.strc_tests_rings.specs.Toys.{idle_stop, idle_mark};

use std::alloc::Global;
use strc_sched_outcome::stop::Stop;
use strc_stage_core::{Actor, Parcel};
use strc_stage_steps::StageActor;

/// In one round memory is refused to it.
#[derive(Drop)]
pub struct Idle {
    pub first: bool,
    pub rounds: u32,
    pub taken: u32,
    pub refused: u32,
    pub stop: Option<Stop>,
    pub finished: bool,
}

impl Idle {
    fn stop_on(&self, given: &Parcel) -> Option<Stop>
        ensures { result ≡ idle_stop self.now.taken self.now.refused self.now.stop given.now }
    {
        if given.stop().is_some() {
            return given.stop();
        }
        if let Some(stop) = &self.stop {
            return Some(stop.copy());
        }
        if self.taken == self.refused {
            Some(Stop::NoMemory)
        } else {
            None
        }
    }

    fn passes(&self, given: &Parcel) -> bool
        ensures { result ≡ (is_some given.now.stop || is_some self.now.stop) }
    {
        given.stopped() || self.stop.is_some()
    }

    fn marks(&self, given: &Parcel) -> bool
        requires { self.now.taken < self.now.rounds }
        ensures { result ≡ idle_mark self.now.first self.now.taken self.now.rounds given.now }
    {
        if self.first {
            self.rounds - self.taken == 1 || given.stopped()
        } else {
            given.last()
        }
    }
}

/// A parcel with this stop and mark, and empty unless it passes.
fn handed_on(given: Parcel, passes: bool, stop: &Option<Stop>, last: bool) -> Parcel
    requires { or_else given.stop stop.now ≡ stop.now }
    ensures { result ≡ parcel (cond passes given.load (emptied given.load)) stop.now last }
{
    let mut result = given;
    if !passes {
        result.empty();
    }
    if let Some(why) = stop {
        result.set_stop(why.copy());
    }
    result.mark_last(last);
    result
}

impl Actor for Idle {
    ghost use Rattle.std.specs.Prelude.{◌≡◌, is_some, true};
    ghost use Rattle.strc_stage_core.specs.Actors.{Step};
    ghost use Rattle.strc_stage_steps.specs.Steps.{stage_work};
    ghost use Rattle.strc_tests_rings.specs.Toys.{is_done};
    ghost use Rattle.strc_tests_rings.specs.Views.{idle_view};

    ghost does = { λ before given after result.
        Step stage_work (idle_view before) given (idle_view after) result };

    ghost has_finished = { λ idle. is_done idle.finished idle.taken idle.rounds };

    ghost has_halted = { λ idle. is_some idle.stop };

    ghost takes = { λ _ _. true };

    fn finished(&self) -> bool {
        self.finished || self.taken >= self.rounds
    }

    fn halted(&self) -> bool {
        self.stop.is_some()
    }

    fn fits(&self, _parcel: &Parcel) -> bool {
        true
    }

    fn step(&mut self, _alloc: Global, parcel: Parcel) -> Parcel {
        let stop = self.stop_on(&parcel);
        let last = self.marks(&parcel);
        let passes = self.passes(&parcel);
        let handed = handed_on(parcel, passes, &stop, last);
        self.taken += 1;
        self.stop = stop;
        self.finished = last;
        handed
    }
}

impl StageActor for Idle {
    ghost use Rattle.strc_tests_rings.specs.Views.{idle_view};
    ghost use Rattle.strc_tests_rings.specs.Laws.{goes_on, has_ended};

    ghost see = { idle_view };

    ghost steps = { λ stage given later result did. did };

    ghost goes = { λ stage. goes_on stage.finished stage.taken stage.rounds };

    ghost ends = { λ stage. has_ended stage.finished stage.taken stage.rounds };
}
