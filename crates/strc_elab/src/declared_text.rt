// The texts of declared streams.

ghost use Rattle.std.specs.Prelude.{◌≡◌, IfSome};
ghost use Rattle.std.specs.Option.{option_map};
ghost use Rattle.strc_parse_tree.specs.View.{stream_view, declaration_view};
ghost use Rattle.strc_elab.specs.Sources.{named_source, declaration_source, text_source};
ghost use Rattle.strc_elab.specs.Tasks.{KnowsNames, program_of, text_view};
ghost use Rattle.strc_elab_statements.specs.Texts as texts;

use crate::placed_error::PlacedError;
use crate::task::{Task, Text};
use std::alloc::Global;
use strc_elab_statements::error::ElabErrorKind;
use strc_elab_statements::index::number_of;
use strc_lex_names::name::Name;
use strc_lex_names::place::Span;
use strc_parse_tree::tree::{Decl, StreamTree, StreamType};
use strc_work_meaning::constants::Constants;

/// Whether a refusal is of what a stream's own text says, and not of the statement that adds it.
fn is_own(kind: &ElabErrorKind) -> bool {
    match kind {
        ElabErrorKind::UnknownName { name: _ }
        | ElabErrorKind::TypeMismatch { stream: _ }
        | ElabErrorKind::BadWeights { stream: _ }
        | ElabErrorKind::ConstFault { cause: _ } => true,
        ElabErrorKind::NoMain
        | ElabErrorKind::ManyMains
        | ElabErrorKind::DepthLimit
        | ElabErrorKind::NodeLimit
        | ElabErrorKind::BadArguments { stream: _ }
        | ElabErrorKind::TwoInputs
        | ElabErrorKind::TapeTwice { node: _ }
        | ElabErrorKind::Disconnected
        | ElabErrorKind::NoMemory => false,
    }
}

/// An answer for a stream's text; where it is a refusal of what the text itself says, and neither
/// it nor a statement has a place, at the name of its declaration. The constants of a text with a
/// name are its arguments, which a refusal within it knows.
pub(crate) fn in_own_text<T>(
    alloc: Global,
    name: Option<&Name>,
    constants: &Constants,
    answer: Result<T, PlacedError>,
) -> Result<T, PlacedError>
    ensures { result ≡ answer }
{
    match answer {
        Ok(value) => Ok(value),
        Err(refused) => {
            let is_here = refused.place.is_none() && is_own(refused.error.kind());
            let own = if is_here { place_of(name) } else { None };
            Err(PlacedError {
                error: refused.error.or_at(own).or_within(alloc, name, constants),
                place: refused.place,
            })
        }
    }
}

/// Where a stream's name is written, if it has one.
fn place_of(name: Option<&Name>) -> Option<Span> {
    match name {
        Some(name) => name.place(),
        None => None,
    }
}

/// The first declaration of a name, with its number.
pub(crate) fn declared<'a>(task: &Task<'a>, name: &[u8]) -> Option<(usize, &'a Decl)>
    requires { KnowsNames task.now }
    ensures found { option_map (λ f. (f.0, declaration_view f.1.now)) result
        ≡ texts.declared_from 0 (program_of task.now) name.now }
    ensures source { IfSome result (λ f. declaration_source f.1.now
        ≡ named_source task.now.declarations.now name.now) }
{
    match number_of(task.declarations, task.numbers, name) {
        Some(number) => Some((number, &task.declarations[number])),
        None => None,
    }
}

/// The text of a declared stream.
pub fn text_of(declaration: &Decl) -> Text
    ensures view { text_view result ≡ texts.text_of declaration.now.name
        (stream_view declaration.now.stream) }
    ensures source { text_source result ≡ declaration_source declaration.now }
{
    match &declaration.stream {
        StreamTree::Filter(filter) => {
            let types = StreamType {
                input: filter.input,
                output: filter.output,
            };
            Text::Filter(Some(&declaration.name), types, &filter.members)
        }
        StreamTree::Composite(composite) => {
            Text::Composite(Some(composite.types), composite.kind, &composite.block)
        }
    }
}
