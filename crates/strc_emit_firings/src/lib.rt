// Takes a filter, and the C of its helper functions and its bodies.
// Gives laws on what that C does, each the contract of a public function with an empty body, and no
// code: functions mean what the C standard (ISO/IEC 9899:2011, 6.2.4, 6.5.2.2 and 6.8.6.4) says of
// calls, of the lifetime of their locals and of their return.
// A caller relies on `firings_do_the_same`: a firing of a filter's body does in C what its text
// means.
// Stands on strc_emit_meaning, whose laws on the C of code it composes with those of strc_work on
// what lowered code means; on strc_emit_code and strc_emit_c, whose C it speaks of; on
// strc_work_code and strc_work_meaning; and on strc_parse_tree and strc_lex_names.
#![tactic(auto)]

ghost use Rattle.strc_emit_firings.specs.Firings.{FiringsDoTheSame, HelpersDoTheSame};

/// A call of a helper function, with as many arguments as it has parameters, gives in C what it
/// gives in the text, or comes to the same fault, the one of too many calls among them.
pub fn helpers_do_the_same()
    ensures { HelpersDoTheSame }
{}

/// A firing of a body of a filter: from a memory with the fields' values and the items of the
/// window, C comes to one with what the firing gives, or to the same fault; it is never undefined.
pub fn firings_do_the_same()
    ensures { FiringsDoTheSame }
{}
