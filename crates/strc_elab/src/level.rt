// Streams in one another, level by level. The rules of a level are made of what elaborates the
// level below, so that each is proved by itself; here they are joined.

ghost use Rattle.strc_elab.specs.Tasks.{KnowsNames, IsTaskVerdict};

use crate::body::Body;
use crate::placed_error::PlacedError;
use crate::task::{Elaborated, Task};
use strc_elab_statements::error::{ElabError, ElabErrorKind};

/// The instances that a text means, with so many levels as the task allows.
pub(crate) fn elaborate_text(task: Task) -> Result<Elaborated, PlacedError>
    requires { KnowsNames task }
    ensures { IsTaskVerdict task.entry result }
{
    if task.levels == 0 {
        return Err(PlacedError::from(ElabError::from(ElabErrorKind::DepthLimit)));
    }
    let body = Body {
        task,
        elaborate: elaborate_text,
    };
    body.text_elaborated()
}
