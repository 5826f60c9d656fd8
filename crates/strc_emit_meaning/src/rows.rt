// Worked rows of what C does.

ghost use Rattle.strc_emit_meaning.specs.Rows.{CounterOverflows, DivisionByZero, LoopsTurn};
ghost use Rattle.strc_emit_meaning.specs.Rows.{ShiftIsMasked, SumWraps, WindowEnds};

/// A sum that wraps.
pub fn sum_wraps()
    ensures { SumWraps }
{}

/// A division by zero, with no meaning alone, and a fault after its test; and the least number by
/// -1.
pub fn division_by_zero()
    ensures { DivisionByZero }
{}

/// An item within the window, and one outside, with no meaning alone, and a fault after its test.
pub fn window_ends()
    ensures { WindowEnds }
{}

/// A shift by 33 is one by 1.
pub fn shift_is_masked()
    ensures { ShiftIsMasked }
{}

/// A counter past the greatest int has no meaning.
pub fn counter_overflows()
    ensures { CounterOverflows }
{}

/// A loop that ends, one that doesn't, and one that counts its turns.
pub fn loops_turn()
    ensures { LoopsTurn }
{}
