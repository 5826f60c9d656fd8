// Where the nodes and the channels of a program come from.

ghost use Rattle.std.specs.Prelude.{◌≡◌, None};
ghost use Rattle.std.specs.Option.{option_map, option_or};
ghost use Rattle.strc_cli_places.specs.Nodes as nodes;
ghost use Rattle.strc_cli_places.specs.Parts as spec;

use crate::composites::part_statement;
use crate::known::Known;
use strc_cli_source::preorder::Origin;
use strc_cli_source::spelling::spelled_or_first;
use strc_lex_names::place::Span;

/// The declaration of a node's filter, or else the statement that the node comes from.
#[tactic(auto, using(crate::proofs::Naming::named_marked, crate::proofs::Naming::stated_marked))]
pub fn place_of_node(known: Known<'_>, node: usize) -> Option<Span>
    ensures { nodes.MarksNode known.entry.source.text.now known.entry.source.tokens.now
        (nodes.declared_name (option_map (λ n. n.now) known.entry.nodes) node)
        (nodes.node_statement (option_map (λ m. m.now) known.entry.source.main)
        (option_map (λ p. p.now) known.entry.program)
        (option_map (λ n. n.now) known.entry.nodes) node) result }
{
    match declaration_of(known, node) {
        Some(place) => Some(place),
        None => statement_of(known, node),
    }
}

/// The statement that a node comes from.
pub fn statement_of(known: Known<'_>, node: usize) -> Option<Span>
    ensures { result ≡ nodes.heading_of known.entry.source.tokens.now
        (nodes.node_statement (option_map (λ m. m.now) known.entry.source.main)
        (option_map (λ p. p.now) known.entry.program)
        (option_map (λ n. n.now) known.entry.nodes) node) }
{
    let origin = origin_of(known, node)?;
    let place = part_or_added(known, origin)?;
    Some(known.source.heading(place))
}

/// The statement that adds a node, or of a part of a composite stream the first for this part.
fn part_or_added(known: Known<'_>, origin: Origin) -> Option<Span>
    ensures { result ≡ nodes.part_or_added (option_map (λ m. m.now) known.entry.source.main)
        (option_map (λ p. p.now) known.entry.program) origin.added origin.part }
{
    match origin.part {
        Some(part) => part_statement(known, origin.added, part),
        None => origin.added,
    }
}

/// The name by which a node's filter is declared.
fn declaration_of(known: Known<'_>, node: usize) -> Option<Span>
    ensures named { nodes.MarksName known.entry.source.text.now known.entry.source.tokens.now
        (nodes.declared_name (option_map (λ n. n.now) known.entry.nodes) node) result }
    ensures unnamed { nodes.declared_name (option_map (λ n. n.now) known.entry.nodes) node ≡ None
        → result ≡ None }
{
    let seen = known.nodes?.nodes.get(node)?;
    let declared = seen.origin.declared?;
    spelled_or_first(known.source, Some(declared), &seen.name)
}

fn origin_of(known: Known<'_>, node: usize) -> Option<Origin>
    ensures { result ≡ nodes.origin_at (option_map (λ n. n.now) known.entry.nodes) node }
{
    Some(known.nodes?.nodes.get(node)?.origin)
}

/// The declaration of the filter at a channel's source, or else of that at its target, or the
/// statement that one of them comes from.
pub fn place_of_channel(known: Known<'_>, channel: usize) -> Option<Span>
    ensures { nodes.MarksChannel known.entry.source.text.now known.entry.source.tokens.now
        (option_map (λ m. m.now) known.entry.source.main)
        (option_map (λ p. p.now) known.entry.program) (option_map (λ n. n.now) known.entry.nodes)
        (spec.ends_of (option_map (λ g. g.now) known.entry.graph) channel) result }
{
    let (from, to) = ends_of(known, channel)?;
    place_of_ends(known, from, to)
}

/// The declaration of the first of two nodes that has one, or else the statement of one.
#[tactic(auto, using(crate::proofs::Naming::source_marked, crate::proofs::Naming::target_marked))]
fn place_of_ends(known: Known<'_>, from: usize, to: usize) -> Option<Span>
    ensures { nodes.MarksNode known.entry.source.text.now known.entry.source.tokens.now
        (nodes.first_name (nodes.declared_name (option_map (λ n. n.now) known.entry.nodes) from)
        (nodes.declared_name (option_map (λ n. n.now) known.entry.nodes) to))
        (option_or (nodes.node_statement (option_map (λ m. m.now) known.entry.source.main)
        (option_map (λ p. p.now) known.entry.program)
        (option_map (λ n. n.now) known.entry.nodes) from)
        (nodes.node_statement (option_map (λ m. m.now) known.entry.source.main)
        (option_map (λ p. p.now) known.entry.program)
        (option_map (λ n. n.now) known.entry.nodes) to)) result }
{
    if let Some(place) = declaration_of(known, from) {
        return Some(place);
    }
    if let Some(place) = declaration_of(known, to) {
        return Some(place);
    }
    statement_of(known, from).or(statement_of(known, to))
}

/// The nodes at the two ends of a channel.
fn ends_of(known: Known<'_>, channel: usize) -> Option<(usize, usize)>
    ensures { result ≡ spec.ends_of (option_map (λ g. g.now) known.entry.graph) channel }
{
    let found = known.graph?.channels().get(channel)?;
    Some((found.source.node as usize, found.target.node as usize))
}
