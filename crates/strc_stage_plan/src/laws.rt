// What counts and schedules of a graph stand on, as laws about all graphs.

ghost use Rattle.strc_stage_plan.specs.Laws.{OneStartup, ScheduledOrRefused};

use strc_sched_orders::laws::{greedy_is_an_order, one_greedy_order};

/// A graph has one list of start-up counts.
pub fn one_startup()
    ensures { OneStartup }
{}

/// A graph that has a schedule of some firings has an order of them, and its buffers are within the
/// limit.
pub fn scheduled_or_refused()
    ensures { ScheduledOrRefused }
{
    greedy_is_an_order();
    one_greedy_order();
}
