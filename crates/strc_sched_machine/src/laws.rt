// Laws on machines.

ghost use Rattle.strc_sched_machine.specs.Memory.{QuietOrdersWantNoMemory};
ghost use Rattle.strc_sched_machine.specs.Parts.{WholeMachinesHold};

/// A machine of a whole graph has what all of its nodes keep, so that each part can be taken out of
/// it, from the first node on.
pub fn whole_machines_hold()
    ensures { WholeMachinesHold }
{}

/// Where no firing of an order's nodes may give words, a run of the order is never out of memory.
pub fn quiet_orders_want_no_memory()
    ensures { QuietOrdersWantNoMemory }
{}
