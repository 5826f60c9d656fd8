// Toy stages and a toy collector, which count their rounds.

use std::alloc::Global;
use strc_run_links::Actor;
use strc_stage_core::Parcel;

/// Appends the number of its round to a block.
#[derive(Drop)]
pub struct Marker {
    pub left: u32,
    pub round: i32,
}

impl Actor for Marker {
    ghost use Rattle.std.specs.Prelude.{◌≡◌, ◌+◌, nat_eq, true, false};

    ghost does = { λ before _ after _. after.left + 1 ≡ before.left };

    ghost has_finished = { λ stage. nat_eq stage.left 0 };

    ghost has_halted = { λ _. false };

    ghost takes = { λ _ _. true };

    fn finished(&self) -> bool {
        self.left == 0
    }

    fn halted(&self) -> bool {
        false
    }

    fn fits(&self, _parcel: &Parcel) -> bool {
        true
    }

    fn step(&mut self, _alloc: Global, parcel: Parcel) -> Parcel {
        let mut parcel = parcel;
        if parcel.block_count() > 0 && parcel.block(0).len() < parcel.room(0) {
            parcel.fill(0, &[self.round]);
        }
        self.left -= 1;
        self.round = self.round.wrapping_add(1);
        parcel
    }
}

/// Counts the rounds in which each stage was in the collector's own round.
#[derive(Drop)]
pub struct Counter {
    pub left: u32,
    pub round: i32,
    pub stages: usize,
    pub good: u32,
}

impl Actor for Counter {
    ghost use Rattle.std.specs.Prelude.{◌≡◌, ◌+◌, nat_eq, true, false};

    ghost does = { λ before _ after _. after.left + 1 ≡ before.left };

    ghost has_finished = { λ collector. nat_eq collector.left 0 };

    ghost has_halted = { λ _. false };

    ghost takes = { λ _ _. true };

    fn finished(&self) -> bool {
        self.left == 0
    }

    fn halted(&self) -> bool {
        false
    }

    fn fits(&self, _parcel: &Parcel) -> bool {
        true
    }

    fn step(&mut self, _alloc: Global, parcel: Parcel) -> Parcel {
        let mut parcel = parcel;
        if parcel.block_count() > 0 && all_are(parcel.block(0), self.stages, self.round) {
            self.good = self.good.wrapping_add(1);
        }
        parcel.empty();
        self.left -= 1;
        self.round = self.round.wrapping_add(1);
        parcel
    }
}

fn all_are(items: &[i32], count: usize, round: i32) -> bool {
    for item in items {
        if *item != round {
            return false;
        }
    }
    items.len() == count
}
