// Takes the nodes of lowered code.
// Gives flat code, which is what is run: branches without loops become lines, two instructions
// become one where they have one form, and calls know the places of their helper functions.
// The theorem to rely on: `linearize::linearize` gives a flat node that does what the node does.
// Stands on strc_work_code, whose nodes it reads and makes.
#![tactic(auto)]

pub mod kept;
pub mod linearize;
pub mod links;
