// What greedy orders are worth, in the first round and in all others.

ghost use Rattle.strc_sched_orders.specs.CopyPeaks.{CopiesPopByRound, RoundPeaksAreExact};
ghost use Rattle.strc_sched_orders.specs.CopyPeaks.{CopyOfTwoFirings};
ghost use Rattle.strc_sched_orders.specs.Laws.{GreedyIsAnOrder, GreedyFindsAnOrder, OneGreedyOrder};
ghost use Rattle.strc_sched_orders.specs.Ranges.{LowNodesFireFirst, RangesFireInTurn};
ghost use Rattle.strc_sched_orders.specs.Ranges.{OuterNodesHaveOneUnit};
ghost use Rattle.strc_sched_orders.specs.Rounds.{OrderRepeats, FillsRepeat, NoBufferOverflows};
ghost use Rattle.strc_sched_orders.specs.Rounds.{PrimedCountsArePastPrework, SchedulesAreRunnable};
ghost use Rattle.strc_sched_orders.specs.Rounds.{RaisedAreSizes};
ghost use Rattle.strc_sched_orders.specs.RoundRates.{RoundRatesAreRates};
ghost use Rattle.strc_sched_orders.specs.Sizing.{OrdersGoOn, SizesGoOn, LimitsGoOn};

/// In a greedy order each firing finds its windows.
pub fn greedy_is_an_order()
    ensures { GreedyIsAnOrder }
{}

/// Where any order of some firings exists, the greedy one is stuck nowhere.
pub fn greedy_finds_an_order()
    ensures { GreedyFindsAnOrder }
{}

/// The greedy order of some firings is one.
pub fn one_greedy_order()
    ensures { OneGreedyOrder }
{}

/// An order of a round is an order of each later one.
pub fn order_repeats()
    ensures { OrderRepeats }
{}

/// The numbers of items in a round are those of the first one.
pub fn fills_repeat()
    ensures { FillsRepeat }
{}

/// A greedy schedule is one of orders in which each firing finds its windows.
pub fn schedules_are_runnable()
    ensures { SchedulesAreRunnable }
{}

/// The greatest numbers of items of start-up, raised to those of a round, are the sizes of buffers.
pub fn raised_are_sizes()
    ensures { RaisedAreSizes }
{}

/// In no round a channel holds more items than the size of its buffer, whichever the orders are.
pub fn no_buffer_overflows()
    ensures { NoBufferOverflows }
{}

/// After start-up no first firing is to come that is unlike the others.
pub fn primed_counts_are_past_prework()
    ensures { PrimedCountsArePastPrework }
{}

/// In a graph without copies of a filter the rates in a round are those of its channels.
pub fn round_rates_are_rates()
    ensures { RoundRatesAreRates }
{}

/// An order from some counts is one from the items that channels have then.
pub fn orders_go_on()
    ensures { OrdersGoOn }
{}

/// Sizes from the items that channels have at some counts are those from these counts.
pub fn sizes_go_on()
    ensures { SizesGoOn }
{}

/// And so is the channel that passes the limit.
pub fn limits_go_on()
    ensures { LimitsGoOn }
{}

/// Where no channel leads from a node that is not below a bound to one that is, all nodes below it
/// fire first.
pub fn low_nodes_fire_first()
    ensures { LowNodesFireFirst }
{}

/// Ranges of nodes into which no channel leads back fire one after another.
pub fn ranges_fire_in_turn()
    ensures { RangesFireInTurn }
{}

/// Outside feedback loops all firings of a node are one unit, after those of all lower nodes.
pub fn outer_nodes_have_one_unit()
    ensures { OuterNodesHaveOneUnit }
{}

/// With each firing of a round but its last a copy pops what its filter pops.
pub fn copies_pop_by_round()
    ensures { CopiesPopByRound }
{}

/// And the greatest number of items before it is that by the rates of a round.
pub fn round_peaks_are_exact()
    ensures { RoundPeaksAreExact }
{}

/// The items before a copy that fires twice a round.
pub fn copy_of_two_firings()
    ensures { CopyOfTwoFirings }
{}
