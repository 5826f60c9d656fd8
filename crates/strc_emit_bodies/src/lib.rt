// Takes the text that is written for a filter.
// Gives laws on it, each the contract of a public function with an empty body, and no code.
// A caller relies on both: the text is the spelling of C functions (`filter_texts_are_spelled`),
// and a firing of these does what the filter's text means (`filter_texts_fire`).
// Stands on strc_emit_filter, whose text it speaks of, on strc_emit_firings, whose laws on firings
// it applies, and on what these stand on.
#![tactic(auto)]

ghost use Rattle.strc_emit_bodies.specs.Bodies.{FilterTextsAreSpelled, FilterTextsFire};

/// The text that is written for a filter is the spelling of its helper functions and its bodies.
pub fn filter_texts_are_spelled()
    ensures { FilterTextsAreSpelled }
{}

/// A firing of the function that is written for a filter's body gives what the filter's text
/// gives, or comes to the same fault; it is never undefined.
pub fn filter_texts_fire()
    ensures { FilterTextsFire }
{}
