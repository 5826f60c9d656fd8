// A ring of stages and a collector: what it begins with, and its parts.

use crate::Parcel;

/// What a ring begins with: the stages in order, the free parcels, and the collector.
#[derive(Drop)]
pub struct Start<S: Drop, C: Drop> {
    pub stages: Vec<S>,
    pub free: Vec<Parcel>,
    pub collector: C,
}

/// The stages in order; the link after each of them, in order, and what each holds, those of the
/// collector last; and the collector.
#[derive(Drop)]
pub struct Parts<S: Drop, C: Drop> {
    pub stages: Vec<S>,
    pub links: Vec<Vec<Parcel>>,
    pub held: Vec<Option<Parcel>>,
    pub collector: C,
}
