// What a person reads of a name that no tape has.

use crate::answer::NoTape;
use std::alloc::{AllocError, Global};
use strc_cli_diagnostics::message::{Message, MessageKind};

/// The name that was given, and the names that there are.
pub(crate) fn no_tape_message(alloc: Global, no_tape: &NoTape) -> Result<Message, AllocError> {
    let tapes = &no_tape.tapes;
    let mut message = Message::new(alloc);
    message.add(b"no tape of this program is named ")?;
    message.quoted(&no_tape.name)?;
    message.hint()?;
    if tapes.is_empty() {
        message.add(b"it has no tapes: nothing in it prints or writes")?;
    } else {
        message.add(b"its tapes are ")?;
    }
    for place in 0..tapes.len() {
        if place != 0 {
            message.add(b", ")?;
        }
        message.quoted(&tapes[place].name)?;
    }
    Ok(message.about(MessageKind::Usage, None))
}
