// What calls an actor's steps.

use std::alloc::Global;
use strc_stage_core::{Actor, Parcel};

/// Calls an actor's step on a parcel. A test's gate waits here for other workers.
pub trait Gate<A: Actor>: Sync {
    ghost use Rattle.std.specs.Prelude.{◌≡◌, false};

    /// The step of actor `at` in this round, counted from 0.
    fn step(&self, alloc: Global, at: u32, round: u32, actor: &mut A, parcel: Parcel) -> Parcel
        requires open { A.has_finished actor.old ≡ false }
        ensures { A.does actor.old parcel actor.new result };
}

/// The gate that lets each step through.
pub struct OpenGate;

impl<A: Actor> Gate<A> for OpenGate {
    fn step(&self, alloc: Global, _at: u32, _round: u32, actor: &mut A, parcel: Parcel) -> Parcel {
        actor.step(alloc, parcel)
    }
}
