// A toy collector, which counts rounds.

ghost use Rattle.std.specs.Prelude.{◌≡◌, cond, is_some};
ghost use Rattle.strc_stage_core.specs.Actors.{or_else};
ghost use Rattle.strc_stage_core.specs.Parcels.{parcel, emptied};
ghost use Rattle.strc_tests_rings.specs.Toys.{counted};

use std::alloc::Global;
use strc_sched_outcome::stop::Stop;
use strc_stage_core::{Actor, Parcel};
use strc_stage_steps::CollectorActor;

/// It counts until the first stop.
#[derive(Drop)]
pub struct Counter {
    pub rounds: u32,
    pub taken: u32,
    pub gathered: u32,
    pub stop: Option<Stop>,
    pub finished: bool,
}

impl Counter {
    /// How many rounds it has gathered.
    pub fn count(&self) -> u32
        ensures { result ≡ counted self.now.stop self.now.gathered self.now.taken }
    {
        if self.stop.is_some() {
            self.gathered
        } else {
            self.taken
        }
    }

    fn stop_on(&self, given: &Parcel) -> Option<Stop>
        ensures { result ≡ or_else self.now.stop given.now.stop }
    {
        match &self.stop {
            Some(stop) => Some(stop.copy()),
            None => given.stop(),
        }
    }
}

/// A stopped parcel as it is, another one empty.
fn returned(given: Parcel) -> Parcel
    ensures { result ≡ parcel (cond (is_some given.stop) given.load (emptied given.load))
        given.stop given.last }
{
    let mut result = given;
    if !result.stopped() {
        result.empty();
    }
    result
}

impl Actor for Counter {
    ghost use Rattle.std.specs.Prelude.{is_some, true};
    ghost use Rattle.strc_stage_core.specs.Actors.{Collects};
    ghost use Rattle.strc_stage_steps.specs.Steps.{stage_work};
    ghost use Rattle.strc_tests_rings.specs.Toys.{is_done};
    ghost use Rattle.strc_tests_rings.specs.Views.{counter_view};

    ghost does = { λ before given after result.
        Collects stage_work (counter_view before) given (counter_view after) result };

    ghost has_finished = { λ own. is_done own.finished own.taken own.rounds };

    ghost has_halted = { λ own. is_some own.stop };

    ghost takes = { λ _ _. true };

    fn finished(&self) -> bool {
        self.finished || self.taken >= self.rounds
    }

    fn halted(&self) -> bool {
        self.stop.is_some()
    }

    fn fits(&self, _parcel: &Parcel) -> bool {
        true
    }

    fn step(&mut self, _alloc: Global, parcel: Parcel) -> Parcel {
        let count = self.count();
        let stop = self.stop_on(&parcel);
        self.gathered = count;
        self.taken += 1;
        self.stop = stop;
        self.finished = parcel.last();
        returned(parcel)
    }
}

impl CollectorActor for Counter {
    ghost use Rattle.strc_tests_rings.specs.Views.{counter_view};
    ghost use Rattle.strc_tests_rings.specs.Laws.{goes_on, has_ended};

    ghost sees = { counter_view };

    ghost collects = { λ own given later result did. did };

    ghost goes = { λ own. goes_on own.finished own.taken own.rounds };

    ghost ends = { λ own. has_ended own.finished own.taken own.rounds };
}
