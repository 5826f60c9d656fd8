// Which declaration is the main stream.

ghost use Rattle.std.specs.Prelude.{◌≡◌, ℕ, List, length, map, nat_eq};
ghost use Rattle.std.specs.Option.{option_map};
ghost use Rattle.std.specs.Cmp.Lexicographic.{pointwise};
ghost use Rattle.indexmap.specs.IndexMap.{get_by};
ghost use Rattle.strc_parse_tree.specs.View.{declaration_view, stream_view};
ghost use Rattle.strc_elab_statements.specs.MainStreams as spec;
ghost use Rattle.strc_elab_statements.specs.Answers.{IsVerdict};
ghost use Rattle.strc_elab_statements.specs.Names.{place_from};
ghost use Rattle.strc_elab_statements.specs.Texts as texts;

use crate::declarations::declared;
use crate::error::{ElabError, ElabErrorKind};
use crate::written::is_as_written;
use indexmap::IndexMap;
use strc_parse_tree::tree::{Decl, ItemType, StreamTree, StreamType};

/// The main stream with its number: the one that is named, or else the only declaration that can be
/// it.
pub fn main_of<'a>(
    declarations: &'a [Decl],
    numbers: &IndexMap<&[u8], usize>,
    main: Option<&str>,
) -> Result<(usize, &'a Decl), ElabError>
    requires { (q : List ℕ) → get_by (λ k. pointwise nat_eq q k.now) numbers.now
        ≡ place_from 0 (map (λ d. d.name) declarations.now) q }
    ensures { IsVerdict (λ m. (m.0, declaration_view m.1.now))
        (spec.main_of (map declaration_view declarations.now)
        (option_map (λ n. n.now) main.entry)) result }
{
    match main {
        Some(name) => named_main(declared(declarations, numbers, name.as_bytes())),
        None => only_main(declarations),
    }
}

/// What a declared stream takes and gives.
fn types_of(stream: &StreamTree) -> StreamType
    ensures { result ≡ spec.types_of (stream_view stream.now) }
{
    match stream {
        StreamTree::Filter(filter) => StreamType {
            input: filter.input,
            output: filter.output,
        },
        StreamTree::Composite(composite) => composite.types,
    }
}

/// Whether a declaration has no parameters.
fn is_plain(declaration: &Decl) -> bool
    ensures { result ≡ nat_eq (length (texts.parameters_of (declaration_view declaration.now))) 0 }
{
    match &declaration.parameters {
        None => true,
        Some(names) => names.is_empty(),
    }
}

/// Whether a declaration can be the main stream: it takes and gives nothing, and has no parameters.
pub fn can_be_main(declaration: &Decl) -> bool
    ensures { result ≡ spec.can_be_main (declaration_view declaration.now) }
{
    let closed = StreamType {
        input: ItemType::Void,
        output: ItemType::Void,
    };
    is_as_written(Some(closed), types_of(&declaration.stream)) && is_plain(declaration)
}

/// The declaration of the main stream's name, where it can be it.
fn named_main(found: Option<(usize, &Decl)>) -> Result<(usize, &Decl), ElabError>
    ensures { IsVerdict (λ m. (m.0, declaration_view m.1.now))
        (spec.named_main (option_map (λ f. (f.0, declaration_view f.1.now)) found.entry)) result }
{
    match found {
        Some((number, declaration)) => {
            if can_be_main(declaration) {
                Ok((number, declaration))
            } else {
                Err(ElabError::from(ElabErrorKind::NoMain))
            }
        }
        None => Err(ElabError::from(ElabErrorKind::NoMain)),
    }
}

/// The only declaration that can be the main stream.
fn only_main(declarations: &[Decl]) -> Result<(usize, &Decl), ElabError>
    ensures { IsVerdict (λ m. (m.0, declaration_view m.1.now))
        (spec.only_main (spec.mains_from 0 (map declaration_view declarations.now))) result }
{
    let mut found = None;
    for (number, declaration) in declarations.iter().enumerate() {
        if can_be_main(declaration) {
            if found.is_some() {
                return Err(ElabError::from(ElabErrorKind::ManyMains));
            }
            found = Some((number, declaration));
        }
    }
    match found {
        Some(main) => Ok(main),
        None => Err(ElabError::from(ElabErrorKind::NoMain)),
    }
}
