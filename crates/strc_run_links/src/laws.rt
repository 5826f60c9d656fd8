// What holds of rings, each law the contract of a public function with an empty body.

ghost use Rattle.strc_run_links.specs.Cores.{RingsAreStates};

use crate::Actor;

/// Where each step is seen as one of the core, a ring is seen as a state of the core.
pub fn rings_are_states<S: Actor, C: Actor, State, Total>()
    ensures { RingsAreStates State Total S.does C.does }
{}
