// What the counted rates of a filter stand on, as laws about all filters.

ghost use Rattle.strc_rate.specs.Kept.{CheckedRatesAreKept};
ghost use Rattle.strc_rate.specs.Ranges.{FiringsStayInRange};
ghost use Rattle.strc_rate.specs.RangeRows.{RangeRows};
ghost use Rattle.strc_rate.specs.Safe.{ClosedPeeksNeverFault, EachPeekHasAnEntry};

/// Where the rates of a filter of known names are accepted, each firing without a fault pops and
/// pushes exactly the declared rates.
pub fn rates_are_kept()
    ensures { CheckedRatesAreKept }
{}

/// Where the rates of a filter of known names are accepted, each peek that its text closes finds
/// its item in every firing before a whole window.
pub fn closed_peeks_never_fault()
    ensures { ClosedPeeksNeverFault }
{}

/// Where the rates of a filter are accepted, each peek of its text has an entry, in order of the
/// text.
pub fn each_peek_has_an_entry()
    ensures { EachPeekHasAnEntry }
{}

/// Where the rates of a filter of known names are accepted and each peek of a body is closed, each
/// firing of that body before a whole window pops and pushes at most its rates and looks at no item
/// past its window, whatever it faults with.
pub fn firings_stay_in_range()
    ensures { FiringsStayInRange }
{}

/// Rows of such firings: one that faults in range, and one out of it where a helper function pops.
pub fn range_rows()
    ensures { RangeRows }
{}
