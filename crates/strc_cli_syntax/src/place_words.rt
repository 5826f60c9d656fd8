// Places in words.

ghost use Rattle.std.specs.Prelude.{OnOk};
ghost use Rattle.std.specs.Option.{option_map};
ghost use Rattle.strc_cli_syntax.specs.Words.{GoesOnAt};

use strc_cli_diagnostics::message::Message;
use strc_cli_diagnostics::place::place_of;
use strc_lex_names::memory::NoMemory;
use strc_lex_names::place::Span;

/// Where a part of a text begins, if there is one, as `, in line 3, column 1`.
#[tactic(auto, using(crate::proofs::Words::at_place))]
pub fn push_place(message: &mut Message, text: &[u8], place: Option<Span>) -> Result<(), NoMemory>
    ensures { OnOk result (GoesOnAt text.now place message.old message.new) }
{
    if let Some(part) = place {
        let place = place_of(text, part.start);
        message.add(b", in line ")?;
        message.number(place.line as u64)?;
        message.add(b", column ")?;
        message.number(place.column as u64)?;
    }
    Ok(())
}
