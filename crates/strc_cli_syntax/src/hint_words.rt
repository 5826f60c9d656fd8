// A hint in words that are known.

ghost use Rattle.std.specs.Prelude.{OnOk};
ghost use Rattle.strc_cli_syntax.specs.Words.{GoesOnWithHint};

use strc_cli_diagnostics::message::Message;
use strc_lex_names::memory::NoMemory;

/// A hint in these words, if there are any.
pub fn push_words(message: &mut Message, hint: &[u8]) -> Result<(), NoMemory>
    ensures { OnOk result (GoesOnWithHint message.old message.new) }
{
    if hint.is_empty() {
        return Ok(());
    }
    message.hint()?;
    Ok(message.add(hint)?)
}
