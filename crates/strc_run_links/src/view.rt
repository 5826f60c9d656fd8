// What an end knows of its link.

use std::collections::LinkedList;
use strc_stage_core::Parcel;

/// What a pass may do, the room of the link, and what the pass has sent and received. No value of
/// it is made.
pub struct Log {
    pub sends: bool,
    pub takes: bool,
    pub room: usize,
    pub sent: LinkedList<Parcel>,
    pub got: LinkedList<Parcel>,
}
