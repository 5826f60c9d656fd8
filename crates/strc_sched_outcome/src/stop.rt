// Why a run stops short of its rounds.

use strc_work_meaning::fault::LocatedCause;

/// Why a run stops: what its machine comes to, and what parcels carry from stage to stage.
#[derive(Debug, Drop)]
pub enum Stop {
    /// A firing of a node, by its number, faults.
    Fault {
        node: u32,
        firing: u64,
        cause: LocatedCause,
    },
    /// An allocation was refused.
    NoMemory,
}

impl Stop {
    ghost use Rattle.std.specs.Prelude.{◌≡◌};

    /// An equal one.
    pub fn copy(&self) -> Stop
        ensures { result ≡ self.now }
    {
        match self {
            Stop::Fault {
                node,
                firing,
                cause,
            } => Stop::Fault {
                node: *node,
                firing: *firing,
                cause: cause.copy(),
            },
            Stop::NoMemory => Stop::NoMemory,
        }
    }
}
