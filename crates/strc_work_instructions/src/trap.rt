// How lowered code can end without a result.

use strc_work_meaning::fault::{Cause, Halt};

/// Why lowered code stopped. In this form it takes one byte, so that a result with it comes back in
/// registers.
#[derive(Clone, Copy)]
pub enum Trap {
    DivZero,
    Index,
    PeekRange,
    Turns,
    Calls,
    NoMemory,
}

impl Trap {
    ghost use Rattle.std.specs.Prelude.{◌≡◌};
    ghost use Rattle.strc_work_instructions.specs.Running.{halt_of};

    /// What it means for the firing.
    pub fn halt(self) -> Halt
        ensures { result ≡ halt_of self }
    {
        match self {
            Trap::DivZero => Halt::Fault(Cause::DivZero),
            Trap::Index => Halt::Fault(Cause::Index),
            Trap::PeekRange => Halt::Fault(Cause::PeekRange),
            Trap::Turns => Halt::Fault(Cause::Turns),
            Trap::Calls => Halt::Fault(Cause::Calls),
            Trap::NoMemory => Halt::NoMemory,
        }
    }
}
