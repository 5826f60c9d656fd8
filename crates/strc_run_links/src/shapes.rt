// A ring's actors with their ends of links, and what they left.

use crate::{Rx, Tx, Worked};

/// A stage with the ends of the links before and after it.
#[derive(Drop)]
pub struct Seat<S: Drop> {
    pub stage: S,
    pub rx: Rx,
    pub tx: Tx,
}

/// The seats in order, and the collector with its ends of the links before and after it.
#[derive(Drop)]
pub struct Ready<S: Drop, C: Drop> {
    pub seats: Vec<Seat<S>>,
    pub collector: C,
    pub rx: Rx,
    pub tx: Tx,
}

/// What the workers left, and what the collector left.
#[derive(Drop)]
pub struct Ended<S: Drop, C: Drop> {
    pub workers: Vec<Worked<S>>,
    pub collected: Worked<C>,
}
