// The rule of a link, and how its passes are cut and put together.

ghost use Rattle.std.specs.Prelude.{ℕ};

use crate::view::Log;
use crossbeam_channel::protocol::{Join, Lesson, Outcome, Protocol, Split};
use std::marker::{Brand, PhantomData};
use strc_stage_core::Parcel;

pub(crate) struct InOrder;

impl Protocol<Parcel, Log> for InOrder {
    ghost use Rattle.std.specs.Prelude.{true, []};
    ghost use Rattle.strc_run_links.specs.Links.{InOrder, log};

    ghost holds = { InOrder };

    ghost first = { log true true 0 [] [] };
}

/// The room of a link, which only proofs know.
pub(crate) trait Room {
    ghost room: { ℕ };
}

impl Room for Brand {
    ghost room = { 0 };
}

/// Cuts the first pass into the giver's and the taker's.
pub(crate) struct Roles<R: Room>(PhantomData<R>);

impl<R: Room> Split<Log> for Roles<R> {
    ghost use Rattle.std.specs.Prelude.{true, false, []};
    ghost use Rattle.strc_run_links.specs.Links.{log};

    ghost left = { λ v. log true false R.room v.sent [] };

    ghost right = { λ v. log false true 0 [] v.got };
}

/// Puts the giver's pass and the taker's together.
pub(crate) struct Whole;

impl Join<Log> for Whole {
    ghost use Rattle.std.specs.Prelude.{true, false, []};
    ghost use Rattle.strc_run_links.specs.Links.{log};

    ghost both = { λ v w. log true true v.room v.sent w.got };

    ghost spent = { log false false 0 [] [] };
}

pub(crate) struct Sent;

impl Outcome<Parcel, Log> for Sent {
    ghost use Rattle.strc_run_links.specs.Links.{Sends};

    ghost then = { Sends };
}

impl Lesson<Parcel, Log> for Sent {
    ghost use Rattle.std.specs.Prelude.{⊤};

    ghost fact = { λ v items. ⊤ };
}

pub(crate) struct Got;

impl Outcome<Parcel, Log> for Got {
    ghost use Rattle.strc_run_links.specs.Links.{Gets};

    ghost then = { Gets };
}

impl Lesson<Parcel, Log> for Got {
    ghost use Rattle.std.specs.Prelude.{⊤};

    ghost fact = { λ v items. ⊤ };
}

/// What is left, one after another.
pub(crate) struct Drained;

impl Outcome<Parcel, Log> for Drained {
    ghost use Rattle.strc_run_links.specs.Links.{Gets};

    ghost then = { Gets };
}

impl Lesson<Parcel, Log> for Drained {
    ghost use Rattle.strc_run_links.specs.Links.{Left};

    ghost fact = { Left };
}
