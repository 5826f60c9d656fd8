// What one firing has popped and pushed, and what its callers wait with.

ghost use Rattle.std.specs.Prelude.{◌≡◌};

use std::marker::Model;
use strc_work_instructions::io::FiringIo;
use strc_work_meaning::fault::Trapped;

/// The items that a firing has pushed, with room for as many as it may push, and room for the
/// locals of callers that wait for their calls. Contracts see the items and both rooms.
#[derive(Drop)]
pub struct Frame {
    pub(crate) io: FiringIo,
    pub(crate) saved: Vec<i32>,
}

impl Model for Frame {
    ghost use Rattle.std.specs.Prelude.{length};
    ghost use Rattle.strc_work.specs.Kept.{Pushed};

    ghost Value = { Pushed };

    ghost view = { λ f. record {
      items = f.io.traffic.pushes;
      room = f.io.room;
      saved = length f.saved.items;
    } };
}

impl Frame {
    /// The items that the last firing pushed, in order. It takes no memory.
    #[inline]
    pub fn pushes(&self) -> &[i32]
        ensures { result.now ≡ self.now.items }
    {
        self.io.pushes()
    }

    /// What is known of what faulted in the last firing.
    pub fn trapped(&self) -> Trapped {
        self.io.trapped()
    }
}
