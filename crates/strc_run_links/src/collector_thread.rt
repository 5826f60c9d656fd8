// The collector works in the thread that runs the ring.

ghost use Rattle.strc_run_links.specs.Working.{Did};

use crate::{Actor, OpenGate, Rx, Tx, Worked, work};
use std::alloc::Global;
use std::sync::Wait;

/// Its steps are no gate's.
pub fn collect<C: Actor + Send, R: Wait>(
    rt: &R,
    alloc: Global,
    collector: C,
    rx: Rx,
    tx: Tx,
) -> Worked<C>
    ensures { Did C.does collector rx tx result }
{
    work(rt, alloc, collector, rx, tx, 0, &OpenGate)
}
