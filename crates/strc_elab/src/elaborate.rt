// From a program's tree to the stream that it means.

ghost use Rattle.std.specs.Prelude.{◌≡◌, ℕ, List, Some, map, nat_eq, slice_get, IfOk};
ghost use Rattle.std.specs.Option.{option_map};
ghost use Rattle.std.specs.Cmp.Lexicographic.{pointwise};
ghost use Rattle.indexmap.specs.IndexMap.{get_by};
ghost use Rattle.strc_parse_tree.specs.View.{declaration_view, program_view};
ghost use Rattle.strc_elab.specs.Answering.{IsPlacedVerdict, IsPlaced};
ghost use Rattle.strc_elab.specs.Elaboration as spec;
ghost use Rattle.strc_elab.specs.Places.{main_place, program_place};
ghost use Rattle.strc_elab_statements.specs.Answers.{IsVerdict};
ghost use Rattle.strc_elab_statements.specs.MainStreams as main_streams;
ghost use Rattle.strc_elab_statements.specs.Names.{place_from};
ghost use Rattle.strc_elab.specs.Sound.{IsElaborated};
ghost use Rattle.strc_elab.specs.Tasks.{elaborated_view};
ghost use Rattle.strc_elab_stream.specs.View.{stream_view};

use crate::child::with_added;
use crate::declared_text::{in_own_text, text_of};
use crate::level::elaborate_text;
use crate::placed_error::PlacedError;
use crate::task::{Elaborated, Task, Totals};
use indexmap::IndexMap;
use std::alloc::Global;
use strc_elab_statements::error::ElabError;
use strc_elab_statements::index::index_of;
use strc_elab_statements::main_stream::main_of;
use strc_elab_stream::added::Added;
use strc_elab_stream::stream::Stream;
use strc_parse_tree::tree::{Decl, Program};
use strc_work_meaning::constants::Constants;

/// How many levels streams may be nested in one another, the main one being the first.
const LEVEL_LIMIT: u32 = 64;

/// The stream that a program means: its composite streams' bodies run, up to the first rule that is
/// broken.
///
/// The main stream is the one that is named, or else the only declaration that can be it. A refusal
/// is that of the first rule that is broken, in order of execution, or `NoMemory` where memory runs
/// out.
pub fn elaborate(alloc: Global, program: &Program, main: Option<&str>) -> Result<Stream, ElabError>
    ensures verdict { IsVerdict stream_view (spec.elaborated (program_view program.now)
        (option_map (λ n. n.now) main.entry)) result }
    ensures sound { IfOk result (λ stream. IsElaborated (stream_view stream)) }
{
    match elaborate_placed(alloc, program, main) {
        Ok(stream) => Ok(stream),
        Err(refused) => Err(refused.error.or_at(refused.place)),
    }
}

/// The same; a refusal has the place of the innermost statement that ran, or in a filter's text of
/// the innermost statement, rate or declaration of fields around what breaks the rule. Weights that
/// aren't allowed are at the statement that said `split` or `join`, ends of a pipeline that don't
/// fit at the one that added the first or the last child. It has none where there is no such
/// statement, and any where memory runs out.
pub fn elaborate_placed(
    alloc: Global,
    program: &Program,
    main: Option<&str>,
) -> Result<Stream, PlacedError>
    ensures verdict { IsPlacedVerdict stream_view (spec.elaborated (program_view program.now)
        (option_map (λ n. n.now) main.entry)) result }
    ensures place { IsPlaced (program_place program.now.declarations.items
        (option_map (λ n. n.now) main.entry)) result }
    ensures sound { IfOk result (λ stream. IsElaborated (stream_view stream)) }
{
    let declarations = program.declarations.as_slice();
    let numbers = index_of(alloc, declarations)?;
    let (number, declaration) = main_declaration(declarations, &numbers, main)?;
    let elaborated = main_elaborated(alloc, declarations, &numbers, number, declaration)?;
    let added = Added {
        place: None,
        name: Some(declaration.name.copy()?),
        arguments: Vec::new(alloc),
    };
    Ok(with_added(alloc, added, elaborated.stream)?)
}

/// The main stream's declaration, with its number.
fn main_declaration<'a>(
    declarations: &'a [Decl],
    numbers: &IndexMap<&[u8], usize>,
    main: Option<&str>,
) -> Result<(usize, &'a Decl), ElabError>
    requires { (q : List ℕ) → get_by (λ k. pointwise nat_eq q k.now) numbers.now
        ≡ place_from 0 (map (λ d. d.name) declarations.now) q }
    ensures verdict { IsVerdict (λ m. (m.0, declaration_view m.1.now))
        (main_streams.main_of (map declaration_view declarations.now)
        (option_map (λ n. n.now) main.entry)) result }
    ensures declared { IfOk result (λ m. slice_get declarations.now m.0 ≡ Some m.1.now) }
{
    let (number, _) = main_of(declarations, numbers, main)?;
    Ok((number, &declarations[number]))
}

/// What the main stream's text means.
fn main_elaborated(
    alloc: Global,
    declarations: &[Decl],
    numbers: &IndexMap<&[u8], usize>,
    number: usize,
    declaration: &Decl,
) -> Result<Elaborated, PlacedError>
    requires declared { slice_get declarations.now number ≡ Some declaration.now }
    requires names { (q : List ℕ) → get_by (λ k. pointwise nat_eq q k.now) numbers.now
        ≡ place_from 0 (map (λ d. d.name) declarations.now) q }
    ensures verdict { IsPlacedVerdict elaborated_view
        (spec.main_elaborated (map declaration_view declarations.now)
        (number, declaration_view declaration.now)) result }
    ensures place { IsPlaced (main_place declarations.now number) result }
{
    let constants = Constants::new(alloc);
    let answer = elaborate_text(Task {
        alloc,
        declarations,
        numbers,
        levels: LEVEL_LIMIT,
        declaration: number,
        constants: &constants,
        text: text_of(declaration),
        totals: Totals {
            turns: 0,
            filters: 0,
        },
    });
    in_own_text(alloc, Some(&declaration.name), &constants, answer)
}
