// A schedule: orders of start-up and of a round, and the buffers that they need.

ghost use Rattle.std.specs.Prelude.{◌≡◌, length};

use crate::unit::Unit;
use std::marker::Model;

/// Orders of the firings of start-up and of a round, and the buffers that they need.
pub struct Schedule {
    startup: Vec<Unit>,
    round: Vec<Unit>,
    greatest: Vec<u32>,
    last: Vec<u32>,
    sizes: Vec<u32>,
}

impl Drop for Schedule {
    fn drop(self) {
        let Schedule {
            startup: _,
            round: _,
            greatest: _,
            last: _,
            sizes: _,
        } = self;
    }
}

impl Model for Schedule {
    ghost use Rattle.strc_sched_orders.specs.Schedules.{ScheduleParts};

    ghost Value = { ScheduleParts };

    ghost view = { λ s. record {
      startup = s.startup.items;
      round = s.round.items;
      greatest = s.greatest.items;
      last = s.last.items;
      sizes = s.sizes.items;
    } };
}

impl Schedule {
    /// A schedule of these parts.
    pub fn new(
        startup: Vec<Unit>,
        round: Vec<Unit>,
        greatest: Vec<u32>,
        last: Vec<u32>,
        sizes: Vec<u32>,
    ) -> Schedule
        requires fills { length greatest.items ≡ length last.items }
        requires sizes { length sizes.items ≡ length last.items }
        ensures startup { result.startup ≡ startup.items }
        ensures round { result.round ≡ round.items }
        ensures greatest { result.greatest ≡ greatest.items }
        ensures last { result.last ≡ last.items }
        ensures sizes { result.sizes ≡ sizes.items }
    {
        Schedule {
            startup,
            round,
            greatest,
            last,
            sizes,
        }
    }

    /// Puts another order of a round in place of this one, with the sizes of the buffers that it
    /// needs, of which each channel has one.
    pub fn replace_round(&mut self, round: Vec<Unit>, sizes: Vec<u32>)
        requires { length sizes.items ≡ length self.old.last }
        ensures { self.new ≡ record self.old { round = round.items; sizes = sizes.items } }
    {
        self.round = round;
        self.sizes = sizes;
    }

    /// The order of start-up.
    pub fn startup(&self) -> &[Unit]
        ensures { result.now ≡ self.now.startup }
    {
        self.startup.as_slice()
    }

    /// The order of a round.
    pub fn round(&self) -> &[Unit]
        ensures { result.now ≡ self.now.round }
    {
        self.round.as_slice()
    }

    /// For each channel the greatest number of items before, between and after the firings of
    /// start-up.
    pub fn greatest(&self) -> &[u32]
        ensures { result.now ≡ self.now.greatest }
    {
        self.greatest.as_slice()
    }

    /// For each channel the number of items after start-up.
    pub fn last(&self) -> &[u32]
        ensures { result.now ≡ self.now.last }
    {
        self.last.as_slice()
    }

    /// For each channel the size of its buffer: the greatest number of items in start-up and in a
    /// round.
    pub fn sizes(&self) -> &[u32]
        ensures { result.now ≡ self.now.sizes }
    {
        self.sizes.as_slice()
    }
}
