// What a worker's thread promises.

use crate::shapes::Seat;
use crate::{Actor, Worked};
use std::snapshot::Snapshot;
use std::thread::{Promise, PromisedHandle};

/// The work on the seat that the worker began with.
#[derive(Drop)]
pub struct Begun<S: Actor>(pub Snapshot<Seat<S>>);

impl<S: Actor> Promise<Worked<S>> for Begun<S> {
    ghost use Rattle.strc_run_links.specs.Seats.{DidSeat};

    ghost kept_by = { λ p w. DidSeat S.does p.0.value w };
}

pub type Child<S> = PromisedHandle<Worked<S>, Begun<S>>;
