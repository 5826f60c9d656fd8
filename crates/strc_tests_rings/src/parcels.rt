// A parcel as it is filled, stopped and emptied.

use std::alloc::Global;
use strc_sched_outcome::stop::Stop;
use strc_stage_core::Parcel;
use strc_work_meaning::fault::{Cause, LocatedCause, Trapped};

/// A parcel with a block of two items and a tape.
fn parcel(alloc: Global) -> Parcel {
    Parcel::new(alloc, &[2], 1)
}

#[test]
fn a_new_parcel_is_empty(rt: HostRuntime) {
    let parcel = parcel(rt.alloc());
    assert_eq!(rt; (parcel.block_count(), parcel.tape_count()), (1, 1));
    assert!(rt; !parcel.stopped() && !parcel.last());
}

/// The first stop stays, and so do stop and mark where a parcel is emptied.
#[test]
fn the_first_stop_stays(rt: HostRuntime) {
    let mut parcel = parcel(rt.alloc());
    parcel.set_stop(Stop::NoMemory);
    parcel.set_stop(Stop::Fault {
        node: 1,
        firing: 2,
        cause: LocatedCause::new(Cause::Turns, Trapped::nothing()),
    });
    parcel.mark_last(true);
    parcel.empty();
    assert!(rt; matches!(parcel.stop(), Some(Stop::NoMemory)));
    assert!(rt; parcel.stopped() && parcel.last());
}
