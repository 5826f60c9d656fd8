// What a worker leaves.

use crate::{Rx, Tx};
use strc_stage_core::Parcel;

/// An actor after its work, the ends of its links, and a parcel that it took and didn't give; and
/// whether that one didn't fit, so that no step was made on it.
#[derive(Drop)]
pub struct Worked<A: Drop> {
    pub actor: A,
    pub rx: Rx,
    pub tx: Tx,
    pub held: Option<Parcel>,
    pub misfit: bool,
}
