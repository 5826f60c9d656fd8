// What goes over a link, within one thread and between two.

use std::alloc::Global;
use std::sync::Wait;
use std::test::Fail;
use std::thread;
use strc_run_links::{Rx, Tx, close, link};
use strc_sched_outcome::stop::Stop;
use strc_stage_core::Parcel;
use strc_work_meaning::fault::{Cause, LocatedCause, Trapped};

/// A parcel that is known again by the number of a firing.
fn numbered(alloc: Global, number: u64) -> Parcel {
    let mut parcel = Parcel::new(alloc, &[], 0);
    parcel.set_stop(Stop::Fault {
        node: 0,
        firing: number,
        cause: LocatedCause::new(Cause::Index, Trapped::nothing()),
    });
    parcel
}

fn number_of(parcel: &Parcel) -> Option<u64> {
    match parcel.stop() {
        Some(Stop::Fault { firing, .. }) => Some(firing),
        _ => None,
    }
}

/// Of two parcels that were given the first is taken: the second is left.
#[test]
fn the_second_of_two_is_left(rt: HostRuntime) -> Result<(), Fail> {
    let alloc = rt.alloc();
    let (mut tx, mut rx) = link(alloc, 2).ok().ok_or("no memory for a link")?;
    assert!(rt; tx.give(&rt, numbered(alloc, 1)).is_ok());
    assert!(rt; tx.give(&rt, numbered(alloc, 2)).is_ok());
    let taken = rx.take(&rt).ok_or("nothing is taken")?;
    assert_eq!(rt; number_of(&taken), Some(1));
    let left = close(&rt, alloc, tx, rx)
        .ok()
        .ok_or("no memory for the rest")?;
    assert_eq!(rt; left.len(), 1);
    for parcel in left.iter() {
        assert_eq!(rt; number_of(parcel), Some(2));
    }
    Ok(())
}

/// A parcel comes back where the taker is gone, and none comes where the giver is gone.
#[test]
fn an_end_that_is_gone_is_seen(rt: HostRuntime) -> Result<(), Fail> {
    let alloc = rt.alloc();
    let (mut tx, rx) = link(alloc, 1).ok().ok_or("no memory for a link")?;
    drop(rx);
    let back = tx
        .give(&rt, numbered(alloc, 3))
        .err()
        .ok_or("nothing comes back")?;
    assert_eq!(rt; number_of(&back), Some(3));
    let (tx, mut rx) = link(alloc, 1).ok().ok_or("no memory for a link")?;
    drop(tx);
    assert!(rt; rx.take(&rt).is_none());
    Ok(())
}

fn give_all(rt: &impl Wait, alloc: Global, tx: Tx, count: u64) {
    let mut tx = tx;
    for number in 0..count {
        if tx.give(rt, numbered(alloc, number)).is_err() {
            return;
        }
    }
}

/// How many come in order, from number 0 on.
fn take_all(rt: &impl Wait, rx: Rx) -> u64 {
    let mut rx = rx;
    let mut taken = 0u64;
    for _ in rt.forever() {
        match rx.take(rt) {
            Some(parcel) if number_of(&parcel) == Some(taken) => taken = taken.wrapping_add(1),
            _ => return taken,
        }
    }
    unreachable!()
}

/// Far more parcels than there is room for: both ends have to wait.
#[test]
fn all_come_in_order_between_threads(rt: HostRuntime) -> Result<(), Fail> {
    let alloc = rt.alloc();
    let (tx, rx) = link(alloc, 2).ok().ok_or("no memory for a link")?;
    let ((), taken) = thread::join(
        &rt,
        move || give_all(&rt, alloc, tx, 10_000),
        move || take_all(&rt, rx),
    );
    assert_eq!(rt; taken, 10_000);
    Ok(())
}
