// Takes a plan whose filters keep the rules, and the text of C that is written for it.
// Gives laws on this text's program, each the contract of a public function with an empty body, and
// no code: what premises of the laws on emitted plans the rules give.
// A caller relies on `resolved_plans_answer`: the text spells a program, and this ends with the
// answer of the stream equations.
// Stands on strc_emit_answers, whose laws these are premises of, on strc_work_rules, and on
// strc_elab, whose instances of filters are resolved.
#![tactic(auto)]

ghost use Rattle.strc_emit_resolved.specs.Resolved.{ResolvedKeepSides, ResolvedCallsFit};
ghost use Rattle.strc_emit_resolved.specs.Resolved.{ResolvedRow};
ghost use Rattle.strc_emit_resolved.specs.Elaborated.{InstancesAreResolved};
ghost use Rattle.strc_emit_resolved.specs.Programs.{TextsHavePrograms, ResolvedPlansAnswer};

/// A resolved filter looks at items, and gives some, only on sides that have items.
pub fn resolved_keep_sides()
    ensures { ResolvedKeepSides }
{}

/// A resolved filter calls its helper functions with as many arguments as they take.
pub fn resolved_calls_fit()
    ensures { ResolvedCallsFit }
{}

/// The text of a plan whose filters are resolved spells a program, in any setting.
pub fn texts_have_programs()
    ensures { TextsHavePrograms }
{}

/// The program that a plan's text spells ends with the answer of the stream equations, or at its
/// fault, where the plan's filters are resolved; it is never undefined.
pub fn resolved_plans_answer()
    ensures { ResolvedPlansAnswer }
{}

/// A filter that passes items on is resolved where it takes some.
pub fn resolved_row()
    ensures { ResolvedRow }
{}

/// The filters of a plan of an elaborated stream are resolved.
pub fn instances_are_resolved()
    ensures { InstancesAreResolved }
{}
