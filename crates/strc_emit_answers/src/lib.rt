// Takes a plan, the text of C that is written for it, and the program of this text.
// Gives laws on what this program means, each the contract of a public function with an empty body,
// and no code: what premises of the laws on planned graphs' programs a plan and its text give.
// A caller relies on `plans_answer`: the program ends with the answer of the stream equations.
// Stands on strc_emit_plans, whose programs these are, on strc_emit, which writes the text, on
// strc_stage_plan, which says what a plan is, and on what these stand on.
#![tactic(auto)]

ghost use Rattle.strc_emit_answers.specs.Given.{GivenGoesOn};
ghost use Rattle.strc_emit_answers.specs.Answers.{PlansAnswer, PlansSpell};
ghost use Rattle.strc_emit_answers.specs.Fires.{FiresSpell, FireRow};
ghost use Rattle.strc_emit_answers.specs.Orders.{OrdersSpell, OrderRow};
ghost use Rattle.strc_emit_answers.specs.Spelled.{TextsSpell};

/// All that the nodes of a whole program give comes to a channel.
pub fn given_goes_on()
    ensures { GivenGoesOn }
{}

/// The functions that a program's text spells are those of its filters' nodes, with the values that
/// its fields begin with.
pub fn texts_spell()
    ensures { TextsSpell }
{}

/// The program of a plan's text ends with the answer of the stream equations, or at its fault; it
/// is never undefined.
pub fn plans_answer()
    ensures { PlansAnswer }
{}

/// The text of an order spells functions that do, call by call, what the program does in it.
pub fn orders_spell()
    ensures { OrdersSpell }
{}

/// An order of one call, and of one move.
pub fn order_row()
    ensures { OrderRow }
{}

/// The text of the function of a node's firings spells one that does in each call what the program
/// does in it.
pub fn fires_spell()
    ensures { FiresSpell }
{}

/// The functions that a plan's text has for its nodes spell ones that do in each call what the
/// program does in it.
pub fn plans_spell()
    ensures { PlansSpell }
{}

/// The function of a node that passes nothing on.
pub fn fire_row()
    ensures { FireRow }
{}
