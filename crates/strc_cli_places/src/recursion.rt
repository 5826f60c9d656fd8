// Streams that add themselves.

ghost use Rattle.std.specs.Prelude.{◌≡◌, ◌++◌, map, All, IfOk, IfSome, IsTrue, OnOk, Some, List, ℕ};
ghost use Rattle.std.specs.Option.{option_map};
ghost use Rattle.strc_cli_places.specs.Streams as spec;
ghost use Rattle.strc_cli_places.specs.Additions.{addition_view};

use crate::known::Known;
use strc_lex_names::memory::NoMemory;
use strc_lex_names::place::Span;
use strc_parse_tree::tree::{Child, Composition, Decl, Stmt, StreamTree};

/// In a text of more tokens it isn't looked for.
const MOST_TOKENS: usize = 3_000;

/// A statement that adds a declared stream.
#[derive(Clone, Copy)]
struct Addition<'a> {
    place: Span,
    name: &'a [u8],
}

/// The first statement that adds a stream again, of those in the declaration around a place; where
/// it adds itself through others, the one that adds the first of these.
pub fn recursive_statement(known: Known<'_>, inside: Span) -> Result<Option<Span>, NoMemory>
    ensures { IfOk result (λ found. IfSome found (spec.IsRecursive
        (option_map (λ p. p.now) known.entry.program))) }
{
    if known.source.tokens.len() > MOST_TOKENS {
        return Ok(None);
    }
    let Some(around) = declaration_around(known, inside) else {
        return Ok(None);
    };
    for addition in &additions_of(known, around)? {
        if leads_to(known, addition.name, around.name.as_bytes())? {
            return Ok(Some(addition.place));
        }
    }
    Ok(None)
}

/// The declaration around a place: the last one whose name is before it.
fn declaration_around<'a>(known: Known<'a>, inside: Span) -> Option<&'a Decl>
    ensures { IfSome result (λ around. spec.declared_as around.now.name
        (option_map (λ p. p.now) known.entry.program) ≡ Some around.now) }
{
    let around = known
        .declarations()
        .iter()
        .rev()
        .find(|declaration| match declaration.name.place() {
            Some(name) => name.start < inside.start,
            None => false,
        })?;
    known.declaration_named(around.name.as_bytes())
}

/// Whether a declared stream is another one, or adds it, or adds one that does so.
fn leads_to(known: Known<'_>, name: &[u8], target: &[u8]) -> Result<bool, NoMemory>
    ensures { IfOk result (λ leads. IsTrue leads → spec.LeadsTo
        (option_map (λ p. p.now) known.entry.program) name.now target.now) }
{
    let mut reached: Vec<&[u8]> = Vec::new(known.alloc);
    reached.push(name)?;
    for number in 0..known.declarations().len() {
        let Some(next) = reached.get(number) else {
            return Ok(false);
        };
        if *next == target {
            return Ok(true);
        }
        if let Some(declaration) = known.declaration_named(next) {
            reach(known, declaration, &mut reached)?;
        }
    }
    Ok(false)
}

/// Adds the names of the streams that a declared one adds, each once.
fn reach<'a>(
    known: Known<'a>,
    declaration: &'a Decl,
    reached: &mut Vec<&'a [u8]>,
) -> Result<(), NoMemory>
    ensures { (name : List ℕ) → spec.declared_as declaration.now.name
        (option_map (λ p. p.now) known.entry.program) ≡ Some declaration.now
        → spec.LeadsTo (option_map (λ p. p.now) known.entry.program) name declaration.now.name
        → All (λ next. spec.LeadsTo (option_map (λ p. p.now) known.entry.program) name next.now)
        reached.old.items
        → OnOk result (All (λ next. spec.LeadsTo (option_map (λ p. p.now) known.entry.program)
        name next.now) reached.new.items) }
{
    for addition in &additions_of(known, declaration)? {
        if !reached.iter().any(|name| *name == addition.name) {
            reached.push(addition.name)?;
        }
    }
    Ok(())
}

/// The statements of a declaration that add declared streams.
fn additions_of<'a>(known: Known<'a>, declaration: &'a Decl) -> Result<Vec<Addition<'a>>, NoMemory>
    ensures { IfOk result (λ additions. map addition_view additions.items
        ≡ spec.additions_in_stream declaration.now.stream) }
{
    let mut additions = Vec::new(known.alloc);
    if let StreamTree::Composite(composite) = &declaration.stream {
        add_block(&composite.block, &mut additions)?;
    }
    Ok(additions)
}

#[cycle(additions)]
fn add_block<'a>(block: &'a [Stmt], additions: &mut Vec<Addition<'a>>) -> Result<(), NoMemory>
    ensures { OnOk result (map addition_view additions.new.items
        ≡ map addition_view additions.old.items ++ spec.additions_in_block block.now) }
{
    for statement in block {
        add_statement(statement, None, additions)?;
    }
    Ok(())
}

#[cycle(additions)]
fn add_statement<'a>(
    statement: &'a Stmt,
    here: Option<Span>,
    additions: &mut Vec<Addition<'a>>,
) -> Result<(), NoMemory>
    ensures { OnOk result (map addition_view additions.new.items
        ≡ map addition_view additions.old.items ++ spec.additions_in here statement.now) }
{
    match statement {
        Stmt::Placed(place, inner) => add_statement(inner, Some(*place), additions),
        Stmt::Block(block) => add_block(block, additions),
        Stmt::If(_, chosen) | Stmt::While(_, chosen) | Stmt::For(_, _, _, chosen) => {
            add_statement(chosen, here, additions)
        }
        Stmt::IfElse(_, chosen, other) => {
            add_statement(chosen, here, additions)?;
            add_statement(other, here, additions)
        }
        Stmt::Compose(Composition::Child(_, child)) => add_child(child, here, additions),
        Stmt::Compose(Composition::Split(_))
        | Stmt::Compose(Composition::Join(_))
        | Stmt::Compose(Composition::Enqueue(_))
        | Stmt::Empty
        | Stmt::Declare(_)
        | Stmt::Evaluate(_)
        | Stmt::Assign(_, _, _)
        | Stmt::AssignElement(_, _, _, _)
        | Stmt::Push(_)
        | Stmt::Print(_)
        | Stmt::Println(_)
        | Stmt::Return(_) => Ok(()),
    }
}

#[cycle(additions)]
fn add_child<'a>(
    child: &'a Child,
    here: Option<Span>,
    additions: &mut Vec<Addition<'a>>,
) -> Result<(), NoMemory>
    ensures { OnOk result (map addition_view additions.new.items
        ≡ map addition_view additions.old.items ++ spec.additions_below here child.now) }
{
    match child {
        Child::Composite(_, _, block) => add_block(block, additions),
        Child::Named(name, _) => add_named(name.as_bytes(), here, additions),
        Child::Identity(_) | Child::FileReader(_) | Child::FileWriter(_) | Child::Filter(_, _) => {
            Ok(())
        }
    }
}

fn add_named<'a>(
    name: &'a [u8],
    here: Option<Span>,
    additions: &mut Vec<Addition<'a>>,
) -> Result<(), NoMemory>
    ensures { OnOk result (map addition_view additions.new.items
        ≡ map addition_view additions.old.items ++ spec.named_at here name.now) }
{
    if let Some(place) = here {
        additions.push(Addition { place, name })?;
    }
    Ok(())
}
