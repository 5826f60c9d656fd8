// What the statements of a text add, and where the parts of a composite stream are: its `split` and
// its `join`.

ghost use Rattle.std.specs.Prelude.{◌≡◌};
ghost use Rattle.std.specs.Option.{option_map};
ghost use Rattle.strc_cli_places.specs.Streams as streams;

use crate::known::Known;
use strc_lex_names::place::Span;
use strc_parse_tree::tree::{Child, Composition, Decl, Stmt, StreamTree};
use strc_work_rules::site::Part;

/// The first `split` or `join` of the composite stream that a statement adds; without a statement
/// of the main stream.
pub fn part_statement(known: Known<'_>, added: Option<Span>, part: Part) -> Option<Span>
    ensures { result ≡ streams.part_statement (option_map (λ m. m.now) known.entry.source.main)
        (option_map (λ p. p.now) known.entry.program) added part }
{
    part_in_block(block_added(known, added)?, part)
}

/// The block of the composite stream that a statement adds.
fn block_added<'a>(known: Known<'a>, added: Option<Span>) -> Option<&'a [Stmt]>
    ensures { option_map (λ b. b.now) result
        ≡ streams.block_added (option_map (λ m. m.now) known.entry.source.main)
        (option_map (λ p. p.now) known.entry.program) added }
{
    match added {
        Some(place) => block_of_child(known, child_added(known.declarations(), place.start)?),
        None => block_of_stream(&known.main()?.stream),
    }
}

/// The block of the composite stream that a child is.
fn block_of_child<'a>(known: Known<'a>, child: &'a Child) -> Option<&'a [Stmt]>
    ensures { option_map (λ b. b.now) result
        ≡ streams.child_block (option_map (λ p. p.now) known.entry.program) child.now }
{
    match child {
        Child::Named(name, _) => {
            block_of_stream(&known.declaration_named(name.as_bytes())?.stream)
        }
        Child::Composite(_, _, block) => Some(block),
        Child::Identity(_) | Child::FileReader(_) | Child::FileWriter(_) | Child::Filter(_, _) => {
            None
        }
    }
}

/// The block of a composite stream.
fn block_of_stream(stream: &StreamTree) -> Option<&[Stmt]>
    ensures { option_map (λ b. b.now) result ≡ streams.stream_block stream.now }
{
    match stream {
        StreamTree::Composite(composite) => Some(&composite.block),
        StreamTree::Filter(_) => None,
    }
}

/// The child that the first statement at this byte of the text adds.
pub fn child_added(declarations: &[Decl], at: usize) -> Option<&Child>
    ensures { option_map (λ c. c.now) result ≡ streams.child_added at declarations.now }
{
    for declaration in declarations {
        if let Some(child) = child_in_stream(&declaration.stream, at) {
            return Some(child);
        }
    }
    None
}

fn child_in_stream(stream: &StreamTree, at: usize) -> Option<&Child>
    ensures { option_map (λ c. c.now) result ≡ streams.child_in_stream at stream.now }
{
    match stream {
        StreamTree::Composite(composite) => child_in_block(&composite.block, at),
        StreamTree::Filter(_) => None,
    }
}

#[cycle(child)]
fn child_in_block(block: &[Stmt], at: usize) -> Option<&Child>
    ensures { option_map (λ c. c.now) result ≡ streams.child_in_block at block.now }
{
    for statement in block {
        if let Some(child) = child_in(statement, at) {
            return Some(child);
        }
    }
    None
}

/// The child that the first statement at a byte adds, of this one and those inside of it.
#[cycle(child)]
fn child_in(statement: &Stmt, at: usize) -> Option<&Child>
    ensures { option_map (λ c. c.now) result ≡ streams.child_in at statement.now }
{
    match statement {
        Stmt::Placed(place, inner) => {
            if place.start == at {
                child_of(inner)
            } else {
                child_in(inner, at)
            }
        }
        Stmt::Block(block) => child_in_block(block, at),
        Stmt::If(_, chosen) | Stmt::While(_, chosen) | Stmt::For(_, _, _, chosen) => {
            child_in(chosen, at)
        }
        Stmt::IfElse(_, chosen, other) => match child_in(chosen, at) {
            Some(child) => Some(child),
            None => child_in(other, at),
        },
        Stmt::Compose(Composition::Child(_, added)) => child_below(added, at),
        Stmt::Compose(Composition::Split(_))
        | Stmt::Compose(Composition::Join(_))
        | Stmt::Compose(Composition::Enqueue(_))
        | Stmt::Empty
        | Stmt::Declare(_)
        | Stmt::Evaluate(_)
        | Stmt::Assign(_, _, _)
        | Stmt::AssignElement(_, _, _, _)
        | Stmt::Push(_)
        | Stmt::Print(_)
        | Stmt::Println(_)
        | Stmt::Return(_) => None,
    }
}

/// The same of the statements of a stream that has no name.
#[cycle(child)]
fn child_below(added: &Child, at: usize) -> Option<&Child>
    ensures { option_map (λ c. c.now) result ≡ streams.child_below at added.now }
{
    match added {
        Child::Composite(_, _, block) => child_in_block(block, at),
        Child::Named(_, _)
        | Child::Identity(_)
        | Child::FileReader(_)
        | Child::FileWriter(_)
        | Child::Filter(_, _) => None,
    }
}

/// The child that a statement adds.
fn child_of(statement: &Stmt) -> Option<&Child>
    ensures { option_map (λ c. c.now) result ≡ streams.added_by statement.now }
{
    match statement {
        Stmt::Compose(Composition::Child(_, child)) => Some(child),
        Stmt::Compose(Composition::Split(_))
        | Stmt::Compose(Composition::Join(_))
        | Stmt::Compose(Composition::Enqueue(_))
        | Stmt::Empty
        | Stmt::Block(_)
        | Stmt::Declare(_)
        | Stmt::Evaluate(_)
        | Stmt::Assign(_, _, _)
        | Stmt::AssignElement(_, _, _, _)
        | Stmt::If(_, _)
        | Stmt::IfElse(_, _, _)
        | Stmt::While(_, _)
        | Stmt::For(_, _, _, _)
        | Stmt::Push(_)
        | Stmt::Print(_)
        | Stmt::Println(_)
        | Stmt::Return(_)
        | Stmt::Placed(_, _) => None,
    }
}

#[cycle(part)]
fn part_in_block(block: &[Stmt], part: Part) -> Option<Span>
    ensures { result ≡ streams.part_in_block part block.now }
{
    for statement in block {
        if let Some(place) = part_in(statement, part) {
            return Some(place);
        }
    }
    None
}

/// The first `split` or `join` in a statement, without those of children.
#[cycle(part)]
fn part_in(statement: &Stmt, part: Part) -> Option<Span>
    ensures { result ≡ streams.part_in part statement.now }
{
    match statement {
        Stmt::Placed(place, inner) => {
            if is_part(inner, part) {
                Some(*place)
            } else {
                part_in(inner, part)
            }
        }
        Stmt::Block(block) => part_in_block(block, part),
        Stmt::If(_, chosen) | Stmt::While(_, chosen) | Stmt::For(_, _, _, chosen) => {
            part_in(chosen, part)
        }
        Stmt::IfElse(_, chosen, other) => match part_in(chosen, part) {
            Some(place) => Some(place),
            None => part_in(other, part),
        },
        Stmt::Empty
        | Stmt::Declare(_)
        | Stmt::Evaluate(_)
        | Stmt::Assign(_, _, _)
        | Stmt::AssignElement(_, _, _, _)
        | Stmt::Push(_)
        | Stmt::Print(_)
        | Stmt::Println(_)
        | Stmt::Return(_)
        | Stmt::Compose(_) => None,
    }
}

fn is_part(statement: &Stmt, part: Part) -> bool
    ensures { result ≡ streams.is_part part statement.now }
{
    match (statement, part) {
        (Stmt::Compose(Composition::Split(_)), Part::Split)
        | (Stmt::Compose(Composition::Join(_)), Part::Join) => true,
        _ => false,
    }
}
