// The workers of a ring are joined.

ghost use Rattle.std.specs.Prelude.{◌≡◌, IfOk};
ghost use Rattle.strc_run_links.specs.Working.{Did};
ghost use Rattle.strc_run_links.specs.Children.{begun_of};
ghost use Rattle.strc_run_links.specs.Seats.{IsReady, IsEnded};

use crate::begun::Child;
use crate::failure::Failure;
use crate::shapes::{Ended, Ready};
use crate::{Actor, Start, Worked};
use std::snapshot::Snapshot;
use std::thread;
use std::thread::Threads;

/// What all workers left, and the collector.
pub fn join_all<S: Actor, C: Actor, R: Threads>(
    rt: &R,
    start: Snapshot<Start<S, C>>,
    ready: Snapshot<Ready<S, C>>,
    children: Vec<Child<S>>,
    collected: Worked<C>,
) -> Result<Ended<S, C>, Failure>
    requires ready { IsReady start.value ready.value }
    requires begun { begun_of children.items ≡ ready.value.seats.items }
    requires did { Did C.does ready.value.collector ready.value.rx ready.value.tx collected }
    ensures { IfOk result (λ ended. IsEnded S.does C.does start.value ended) }
{
    match thread::join_promised(rt, children) {
        Ok(workers) => Ok(Ended { workers, collected }),
        Err(refused) => {
            drop(collected);
            join_early(rt, refused.value);
            Err(Failure::NoMemory)
        }
    }
}

/// Ends workers before their last parcels: the ends of the link before the first are dropped. Each
/// worker's own ends are dropped before the next is joined, so that none waits for ever.
pub fn join_early<S: Actor, R: Threads>(rt: &R, children: Vec<Child<S>>) {
    for child in children {
        drop(child.join(rt));
    }
}
