// Takes an instruction, the slots that it names, and a firing's items so far.
// Gives what it does to them, and whether the firing goes on.
// The theorem to rely on: `dispatch::take_inst` does what specs/Machine says of the instruction.
// Stands on strc_work_meaning, whose arithmetic and faults it has.
#![tactic(auto)]

pub mod conditions;
pub mod dispatch;
pub mod io;
pub mod operation;
pub mod port;
pub mod shifted_window;
pub mod slots;
pub mod superinstructions;
pub mod trap;
pub mod window;
