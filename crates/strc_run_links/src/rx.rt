// The taker's end.

ghost use Rattle.std.specs.Prelude.{◌≡◌, true};
ghost use Rattle.crossbeam_channel.specs.Claims.{view, IsSeatAt};
ghost use Rattle.crossbeam_channel.specs.Ends.{receives_on};

use crate::rule::InOrder;
use crate::view::Log;
use crossbeam_channel::{Pass, RuledReceiver};
use strc_stage_core::Parcel;

/// The end of a link at which parcels are taken.
#[derive(Drop)]
pub struct Rx {
    pub(crate) end: RuledReceiver<Parcel, Log, InOrder>,
    pub(crate) pass: Pass<Parcel, Log>,
    ghost seat: { IsSeatAt (receives_on end) pass },
    ghost role: { (view pass).takes ≡ true },
}
