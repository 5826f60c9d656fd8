// Takes lowered code and its C.
// Gives laws on what the C does, each the contract of a public function with an empty body, and no
// code: statements mean what the C standard (ISO/IEC 9899:2011, 6.5 and 6.8) says of the statements
// that they are written as, by strc_emit_c's specs/Meaning.
// A caller relies on `codes_do_the_same`: the C of a function's code does what the code does, comes
// to the same fault where that faults, and is never undefined.
// Stands on strc_emit_code and strc_emit_c, whose C it speaks of, on strc_work_code and
// strc_work_meaning, whose code that is of, and on strc_parse_tree and strc_lex_names.
#![tactic(auto)]

pub mod rows;

ghost use Rattle.strc_emit_meaning.specs.Codes.{CodesDoTheSame};
ghost use Rattle.strc_emit_meaning.specs.Known.{BodiesArePlain, LoweredIsPlain};
ghost use Rattle.strc_emit_meaning.specs.Untested.{UntestedAreEmitted, UntestedDoTheSame};

/// From a memory that shows a machine, the C of a function's code comes to one that shows the
/// machine after the code, or to the same fault; it is never undefined, and none of its loops needs
/// more turns than a firing may make.
pub fn codes_do_the_same()
    ensures { CodesDoTheSame }
{}

/// Lowered code has statements in C, where each call in its text is of a helper function that is
/// known and takes as many arguments.
pub fn lowered_is_plain()
    ensures { LoweredIsPlain }
{}

/// So has that of each body of a filter.
pub fn bodies_are_plain()
    ensures { BodiesArePlain }
{}

/// C without tests of windows and rates does what C with them does, wherever these don't leave.
pub fn untested_do_the_same()
    ensures { UntestedDoTheSame }
{}

/// It is the C of a function that has no such tests.
pub fn untested_are_emitted()
    ensures { UntestedAreEmitted }
{}
