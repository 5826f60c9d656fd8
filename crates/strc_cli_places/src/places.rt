// Which part of a text a refusal is about.

ghost use Rattle.std.specs.Prelude.{◌≡◌, ◌⊎◌, IfOk, IfSome, Some, ℕ};
ghost use Rattle.std.specs.Option.{option_map};
ghost use Rattle.strc_lex.specs.KeywordTexts.{keyword_text};
ghost use Rattle.strc_work_meaning.specs.Filters.{filter_of};
ghost use Rattle.strc_cli_source.specs.Headings.{heading};
ghost use Rattle.strc_cli_places.specs.Keywords as keywords;
ghost use Rattle.strc_cli_places.specs.Large as large;
ghost use Rattle.strc_cli_places.specs.Marked as marked;
ghost use Rattle.strc_cli_places.specs.Nodes as nodes;
ghost use Rattle.strc_cli_places.specs.Parts as parts;
ghost use Rattle.strc_cli_places.specs.Refused as refused;
ghost use Rattle.strc_cli_source.specs.Spelling as spelling;
ghost use Rattle.strc_cli_places.specs.Streams as streams;
ghost use Rattle.strc_run_refusal.specs.declared.refusal.Refusal.TheVariants as refused_for;

use crate::depth::deepest_token;
use crate::known::Known;
use crate::origins::{place_of_channel, place_of_node};
use crate::rate_places::{moved_of, place_of_rate};
use crate::recursion::recursive_statement;
use crate::starts::faulting_start;
use crate::trapped::{byte_of, trapped_part};
use strc_cli_counts::large::large_channel;
use strc_cli_source::channel_rates::rates_of;
use strc_cli_source::operators::faulting_part;
use strc_cli_source::spelling::{beginning_or_first, first_spelled, spelled_or_first};
use strc_cli_source::tokens::{count_of, keyword_before};
use strc_cli_statements::bodies::{peek_outside, uncounted_statement};
use strc_elab_graph::graph::{Channel, Graph, Node};
use strc_lex::token::Keyword;
use strc_lex_names::memory::NoMemory;
use strc_lex_names::place::Span;
use strc_parse_tree::tree::CompositeKind;
use strc_run_refusal::refusal::Refusal;
use strc_work_code::code::Code;
use strc_work_meaning::fault::Cause;
use strc_work_rules::site::{Mismatch, Part, Site};

/// In a text of more tokens no unused declaration is looked for.
const MOST_TOKENS: usize = 10_000;

/// The part of the text that a refusal at this site is about, where there is one.
pub fn place_of_refusal(
    known: Known<'_>,
    refusal: &Refusal,
    site: Site,
) -> Result<Option<Span>, NoMemory>
    ensures { IfOk result (marked.MarksRefusal known.entry.source.text.now
        known.entry.source.tokens.now (option_map (λ m. m.now) known.entry.source.main)
        (option_map (λ p. p.now) known.entry.program) (option_map (λ n. n.now) known.entry.nodes)
        (option_map (λ g. g.now) known.entry.graph)
        site refusal.now) }
{
    match refusal {
        Refusal::UnknownName { name } => {
            let place = heading_of(known, site.place);
            Ok(spelled_or_first(known.source, place, name.as_bytes()))
        }
        Refusal::TypeMismatch { stream }
        | Refusal::BadArguments { stream }
        | Refusal::BadWeights { stream } => Ok(place_in_stream(known, site, *stream)),
        Refusal::NodeLimit | Refusal::DepthLimit => place_of_limit(known, site),
        Refusal::ConstFault { cause } => place_of_fault(known, site, *cause),
        Refusal::NoMain => Ok(place_without_main(known)),
        Refusal::RateMismatch { node, .. } => place_of_rates(known, *node, refusal),
        Refusal::RateLimit { node } => place_of_rates(known, *node, refusal),
        Refusal::RateUnknown { node } => place_uncounted(known, *node),
        Refusal::PeekOutside { node } => place_outside(known, *node),
        Refusal::Inconsistent { channel } | Refusal::BufferLimit { channel } => {
            Ok(place_of_channel(known, *channel))
        }
        Refusal::CountsTooLarge => place_of_large(known),
        Refusal::StartupUnbounded | Refusal::Deadlock { .. } => {
            Ok(first_spelled(known.source, Keyword::Feedbackloop.text()))
        }
        Refusal::Nesting => deepest_token(known.alloc, known.source.tokens),
        Refusal::Lex { .. }
        | Refusal::Parse { .. }
        | Refusal::TextTooLong
        | Refusal::ManyMains
        | Refusal::TwoInputs
        | Refusal::TapeTwice { .. }
        | Refusal::Disconnected
        | Refusal::NoMemory => Ok(heading_of(known, site.place)),
    }
}

/// The filter of a node.
pub fn code_of<'a>(known: Known<'a>, node: usize) -> Option<&'a Code>
    ensures tree { option_map (λ c. c.now) result
        ≡ refused.tree_at (option_map (λ g. g.now) known.entry.graph) node }
    ensures filter { option_map (λ c. filter_of c.now) result
        ≡ refused.filter_at (option_map (λ g. g.now) known.entry.graph) node }
{
    match known.graph?.nodes().get(node)? {
        Node::Filter(instance) => Some(&instance.code),
        _ => None,
    }
}

/// The rate of a node's filter that a refusal is about; the filter, where there is none.
fn place_of_rates(
    known: Known<'_>,
    node: usize,
    refusal: &Refusal,
) -> Result<Option<Span>, NoMemory>
    ensures mismatch { (number declared counted : ℕ)
        → refusal.now ≡ refused_for.RateMismatch number declared counted
        → IfOk result (refused.MarksRateOf known.entry.source.text.now
        known.entry.source.tokens.now (option_map (λ g. g.now) known.entry.graph) node
        refused.is_wrong) }
    ensures limit { (number : ℕ) → refusal.now ≡ refused_for.RateLimit number
        → IfOk result (refused.MarksRateOf known.entry.source.text.now
        known.entry.source.tokens.now (option_map (λ g. g.now) known.entry.graph) node
        refused.is_beyond) }
{
    let filter = place_of_node(known, node);
    let Some(code) = code_of(known, node) else {
        return Ok(filter);
    };
    match moved_of(known.alloc, code, refusal)? {
        Some(moved) => Ok(place_of_rate(known.source, code, moved, filter)),
        None => Ok(filter),
    }
}

/// The statement of a node's filter that can't be counted; the filter, where it isn't known.
fn place_uncounted(known: Known<'_>, node: usize) -> Result<Option<Span>, NoMemory>
    ensures { IfOk result (nodes.MarksStatement known.entry.source.text.now
        known.entry.source.tokens.now
        (refused.uncounted_at (option_map (λ g. g.now) known.entry.graph) node)
        (nodes.declared_name (option_map (λ n. n.now) known.entry.nodes) node)
        (nodes.node_statement (option_map (λ m. m.now) known.entry.source.main)
        (option_map (λ p. p.now) known.entry.program)
        (option_map (λ n. n.now) known.entry.nodes) node)) }
{
    let statement = match code_of(known, node) {
        Some(code) => uncounted_statement(known.alloc, code)?,
        None => None,
    };
    Ok(place_found(known, node, statement))
}

/// The first statement of a node's filter with a peek outside of its window; the filter, where it
/// isn't known.
fn place_outside(known: Known<'_>, node: usize) -> Result<Option<Span>, NoMemory>
    ensures { IfOk result (nodes.MarksStatement known.entry.source.text.now
        known.entry.source.tokens.now
        (refused.outside_at (option_map (λ g. g.now) known.entry.graph) node)
        (nodes.declared_name (option_map (λ n. n.now) known.entry.nodes) node)
        (nodes.node_statement (option_map (λ m. m.now) known.entry.source.main)
        (option_map (λ p. p.now) known.entry.program)
        (option_map (λ n. n.now) known.entry.nodes) node)) }
{
    let statement = match code_of(known, node) {
        Some(code) => peek_outside(known.alloc, code)?,
        None => None,
    };
    Ok(place_found(known, node, statement))
}

/// What is marked of a statement that is found, or else of the node that has it.
#[tactic(auto, using(crate::proofs::Naming::marks_statement))]
fn place_found(known: Known<'_>, node: usize, statement: Option<Span>) -> Option<Span>
    ensures { nodes.MarksStatement known.entry.source.text.now known.entry.source.tokens.now
        statement (nodes.declared_name (option_map (λ n. n.now) known.entry.nodes) node)
        (nodes.node_statement (option_map (λ m. m.now) known.entry.source.main)
        (option_map (λ p. p.now) known.entry.program)
        (option_map (λ n. n.now) known.entry.nodes) node) result }
{
    heading_of(known, statement).or(place_of_node(known, node))
}

/// What is marked of a statement, where there is one.
fn heading_of(known: Known<'_>, statement: Option<Span>) -> Option<Span>
    ensures { result ≡ option_map (λ at. heading at known.entry.source.tokens.now) statement }
{
    Some(known.source.heading(statement?))
}

/// The end of the channel whose rates make the counts of a round too large: the one that moves more
/// items a firing, where it has a place.
fn place_of_large(known: Known<'_>) -> Result<Option<Span>, NoMemory>
    ensures { IfOk result (large.MarksLarge known.entry.source.text.now
        known.entry.source.tokens.now (option_map (λ m. m.now) known.entry.source.main)
        (option_map (λ p. p.now) known.entry.program) (option_map (λ n. n.now) known.entry.nodes)
        (option_map (λ g. g.now) known.entry.graph)) }
{
    let Some(graph) = known.graph else {
        return Ok(None);
    };
    let Some(number) = large_channel(known.alloc, graph)? else {
        return Ok(None);
    };
    let Some(channel) = graph.channels().get(number) else {
        return Ok(None);
    };
    match place_of_node(known, heavier(graph, channel)) {
        Some(place) => Ok(Some(place)),
        None => Ok(place_of_channel(known, number)),
    }
}

/// The node at the end of a channel that moves more items a firing.
fn heavier(graph: &Graph, channel: &Channel) -> usize
    ensures { result ≡ large.heavier graph.now channel.now }
{
    match rates_of(graph, channel) {
        Some((push, pop)) if pop > push => channel.target.node as usize,
        _ => channel.source.node as usize,
    }
}

/// The stream that is asked for, or else the last declared one whose name is nowhere else.
fn place_without_main(known: Known<'_>) -> Option<Span>
    ensures { IfSome known.entry.source.main (λ name.
        spelling.Marks known.entry.source.text.now known.entry.source.tokens.now name.now result
        ⊎ parts.IsUndeclared (option_map (λ p. p.now) known.entry.program) name.now) }
{
    if let Some(main) = known.source.main {
        return known.place_of_name(known.declaration_named(main.as_bytes())?);
    }
    if known.source.tokens.len() > MOST_TOKENS {
        return None;
    }
    let unused = known.declarations().iter().rev().find(|it| count_of(
        known.source.tokens,
        it.name.as_bytes(),
    ) == 1)?;
    known.place_of_name(unused)
}

/// Where the text faults before it runs: at the part of a filter's start that does so, or else at
/// the site's statement.
fn place_of_fault(known: Known<'_>, site: Site, cause: Cause) -> Result<Option<Span>, NoMemory>
    ensures { IfOk result (marked.MarksFault known.entry.source.text.now
        known.entry.source.tokens.now (option_map (λ m. m.now) known.entry.source.main)
        (option_map (λ p. p.now) known.entry.program) (option_map (λ n. n.now) known.entry.nodes)
        (option_map (λ g. g.now) known.entry.graph) site
        cause) }
{
    match trapped_part(known.source, cause, byte_of(site.trapped)) {
        Some(part) => Ok(Some(part)),
        None => place_of_faulting(known, site, cause),
    }
}

/// The part of the statement at a site that faults; where none is known the main stream.
fn place_of_faulting(known: Known<'_>, site: Site, cause: Cause) -> Result<Option<Span>, NoMemory>
    ensures { IfOk result (marked.MarksFaultAt known.entry.source.text.now
        known.entry.source.tokens.now (option_map (λ m. m.now) known.entry.source.main)
        (option_map (λ p. p.now) known.entry.program) (option_map (λ n. n.now) known.entry.nodes)
        (option_map (λ g. g.now) known.entry.graph) site
        cause site.place) }
{
    let Some(place) = site.place else {
        return Ok(place_of_main(known));
    };
    match faulting_start(known, place, cause)? {
        Some(start) => Ok(Some(start)),
        None => Ok(Some(faulting_part(known.source, place, cause))),
    }
}

/// Where there are too many filters or too many levels: of a stream that adds itself the statement
/// that does so.
fn place_of_limit(known: Known<'_>, site: Site) -> Result<Option<Span>, NoMemory>
    ensures { IfOk result (marked.MarksDeep known.entry.source.text.now
        known.entry.source.tokens.now (option_map (λ m. m.now) known.entry.source.main)
        (option_map (λ p. p.now) known.entry.program) (option_map (λ n. n.now) known.entry.nodes)
        (option_map (λ g. g.now) known.entry.graph) site
        site.place) }
{
    let Some(place) = site.place else {
        return Ok(place_of_main(known));
    };
    match recursive_statement(known, place)? {
        Some(again) => Ok(Some(known.source.heading(again))),
        None => Ok(Some(known.source.heading(place))),
    }
}

/// The name of the main stream.
fn place_of_main(known: Known<'_>) -> Option<Span>
    ensures { parts.MarksDeclaration known.entry.source.text.now known.entry.source.tokens.now
        (streams.main_of (option_map (λ m. m.now) known.entry.source.main)
        (option_map (λ p. p.now) known.entry.program)) result }
{
    known.place_of_name(known.main()?)
}

/// The statement of a declared stream that breaks a rule; where it isn't known, the stream's name.
fn place_in_stream(known: Known<'_>, site: Site, stream: usize) -> Option<Span>
    ensures { marked.MarksStream known.entry.source.text.now
        known.entry.source.tokens.now (option_map (λ m. m.now) known.entry.source.main)
        (option_map (λ p. p.now) known.entry.program) (option_map (λ n. n.now) known.entry.nodes)
        (option_map (λ g. g.now) known.entry.graph) site
        stream site.place result }
{
    let Some(place) = site.place else {
        return known.declaration_numbered(stream);
    };
    match site.mismatch {
        Some(Mismatch::Missing(kind, _)) => kind_in(known, place, kind),
        _ => Some(known.source.heading(place)),
    }
}

/// The kind of a composite stream that lacks a part, with the name by which it is declared.
fn kind_in(known: Known<'_>, place: Span, kind: CompositeKind) -> Option<Span>
    ensures { spelling.MarksFrom known.entry.source.text.now known.entry.source.tokens.now
        (keyword_text (keywords.kind_keyword kind)) result }
{
    let heading = known.source.heading(place);
    let keyword = kind_keyword(kind);
    let given = match keyword_before(known.source.tokens, heading.end, keyword) {
        Some(found) => Span {
            start: found.start,
            end: found.end.max(heading.end),
        },
        None => heading,
    };
    beginning_or_first(known.source, Some(given), keyword.text())
}

/// How a kind of composite stream is written.
pub fn kind_keyword(kind: CompositeKind) -> Keyword
    ensures { result ≡ keywords.kind_keyword kind }
{
    match kind {
        CompositeKind::Pipeline => Keyword::Pipeline,
        CompositeKind::Splitjoin => Keyword::Splitjoin,
        CompositeKind::Feedbackloop => Keyword::Feedbackloop,
    }
}

/// How a part of a composite stream is written.
pub fn part_keyword(part: Part) -> Keyword
    ensures { result ≡ keywords.part_keyword part }
{
    match part {
        Part::Add => Keyword::Add,
        Part::Body => Keyword::Body,
        Part::Loop => Keyword::Loop,
        Part::Split => Keyword::Split,
        Part::Join => Keyword::Join,
        Part::Enqueue => Keyword::Enqueue,
    }
}
