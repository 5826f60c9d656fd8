// The giver's end.

ghost use Rattle.std.specs.Prelude.{◌≡◌, true};
ghost use Rattle.crossbeam_channel.specs.Claims.{view, IsSeatAt};
ghost use Rattle.crossbeam_channel.specs.Ends.{sends_on, ruled_capacity};

use crate::rule::InOrder;
use crate::view::Log;
use crossbeam_channel::{Pass, RuledSender};
use strc_stage_core::Parcel;

/// The end of a link at which parcels are given.
#[derive(Drop)]
pub struct Tx {
    pub(crate) end: RuledSender<Parcel, Log, InOrder>,
    pub(crate) pass: Pass<Parcel, Log>,
    ghost seat: { IsSeatAt (sends_on end) pass },
    ghost role: { (view pass).sends ≡ true },
    ghost room: { (view pass).room ≡ ruled_capacity (sends_on end) },
}
