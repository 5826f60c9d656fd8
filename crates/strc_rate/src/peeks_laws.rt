// What is known of a text, as laws about all its runs.

ghost use Rattle.strc_rate.specs.Promises.{CountedItemsAreMoved, EachPeekHasAnEntry};
ghost use Rattle.strc_rate.specs.Promises.{ClosedPeeksFindItems};
ghost use Rattle.strc_rate.specs.Turns.{TurnsAreLeast};

/// A counted loop makes as many turns as are reported: its condition holds in each of them, and not
/// after the last one.
pub fn turns_are_least()
    ensures { TurnsAreLeast }
{}

/// A run of statements of known names, none of them a `return`, without a fault, in a store that
/// has the fields, pops and pushes the counted items.
pub fn counted_items_are_moved()
    ensures { CountedItemsAreMoved }
{}

/// One entry is reported of each peek of a text, also where no run comes to it.
pub fn each_peek_has_an_entry()
    ensures { EachPeekHasAnEntry }
{}

/// In each run before a whole window of statements that don't return, in a store that has the
/// fields, a peek whose entry is closed finds its item.
pub fn closed_peeks_find_items()
    ensures { ClosedPeeksFindItems }
{}
