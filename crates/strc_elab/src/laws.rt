// What small programs mean, as laws about the definitions.

ghost use Rattle.strc_elab.specs.Examples.{RecursionRow, EndlessRow, LoopRow, EndlessLoopRow};

/// A stream whose text adds itself is nested in itself as often as its argument says.
pub fn recursion()
    ensures { RecursionRow }
{}

/// A recursion that never ends is too deep.
pub fn endless_recursion()
    ensures { EndlessRow }
{}

/// An anonymous stream in a loop sees the loop's variable as it is at that moment.
pub fn anonymous_in_a_loop()
    ensures { LoopRow }
{}

/// A loop that never ends makes too many iterations.
pub fn endless_loop()
    ensures { EndlessLoopRow }
{}
