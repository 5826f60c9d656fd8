// What a person reads of a refusal.

ghost use Rattle.std.specs.Prelude.{◌≡◌, [], IfOk, OnOk};
ghost use Rattle.std.specs.Option.{option_map};
ghost use Rattle.strc_cli_diagnostics.specs.Messages.{with_more};
ghost use Rattle.strc_cli_source.specs.NodeWords.{Adds, BeginsWith};
ghost use Rattle.strc_cli_messages.specs.RefusalWords as words;
ghost use Rattle.strc_cli_messages.specs.Told as told;

use crate::fault::push_start_fault;
use crate::hints::push_hint;
use crate::mismatches::push_mismatch;
use crate::pairs::pair_message;
use crate::sentences::plain_sentence;
use crate::site::site_of;
use std::alloc::{AllocError, Global};
use strc_cli_counts::large::large_channel;
use strc_cli_counts::unbalanced::{Unbalanced, unbalanced_items};
use strc_cli_diagnostics::message::{Message, MessageKind};
use strc_cli_places::known::Known;
use strc_cli_places::places::{code_of, place_of_refusal};
use strc_cli_places::rate_places::{Moved, moved_of, rate_keyword};
use strc_cli_source::nodes::{NamedGraph, push_channel, push_node};
use strc_cli_source::preorder::{Preorder, preorder_of};
use strc_cli_source::source::Source;
use strc_cli_source::stuck::push_stuck_loop;
use strc_cli_syntax::syntax::push_syntax;
use strc_elab_paths::label::name_of;
use strc_elab_paths::paths::paths_of;
use strc_elab_statements::within::Within;
use strc_elab_stream::stream::Stream;
use strc_lex::error::LexError;
use strc_lex::lexer::lex;
use strc_lex::token::Token;
use strc_lex_names::memory::NoMemory;
use strc_lex_names::place::Span;
use strc_parse::{ParseError, parse};
use strc_parse_tree::tree::Program;
use strc_run_refusal::placed_refusal::PlacedRefusal;
use strc_run_refusal::refusal::Refusal;
use strc_work_rules::site::{Mismatch, Site};

/// What a person reads of a text's refusal: the part of the text that it is about, one sentence,
/// and where it helps a hint.
///
/// `main` is the main stream that was asked for.
pub fn refusal_message<'a>(
    alloc: Global,
    text: &'a [u8],
    main: Option<&'a str>,
    placed: &'a PlacedRefusal,
) -> Result<Message, NoMemory>
    // It is about the part of the text that breaks the rule: of the text's tree, of the nodes of
    // the refused stream, and of the refused graph. And it says which rule that is.
    ensures { IfOk result (told.TellsOfText text.now (option_map (λ m. m.now) main.entry)
        placed.now) }
{
    let tokens = tokens_of(alloc, text)?;
    let program = program_of(alloc, &tokens)?;
    let nodes = nodes_of(alloc, &placed.stream)?;
    let paths = paths_in(alloc, &placed.stream)?;
    let source = Source {
        text,
        tokens: &tokens,
        main,
    };
    let known = Known {
        alloc,
        source,
        program: program.as_ref(),
        nodes: nodes.as_ref(),
        graph: placed.graph.as_ref(),
        paths: &paths,
    };
    write_at(
        known,
        &placed.refusal,
        &placed.within,
        site_of(known, placed),
    )
}

/// The text's tokens; none where it has none.
pub(crate) fn tokens_of(alloc: Global, text: &[u8]) -> Result<Vec<Token>, NoMemory>
    ensures { IfOk result (λ tokens. told.IsTokensOf text.now tokens.items) }
{
    match lex(alloc, text) {
        Ok(tokens) => Ok(tokens),
        Err(LexError::NoMemory) => Err(NoMemory),
        Err(LexError::Lex { .. } | LexError::TextTooLong) => Ok(Vec::new(alloc)),
    }
}

/// The tree of the text's tokens; none where they are no program's.
fn program_of(alloc: Global, tokens: &[Token]) -> Result<Option<Program>, NoMemory>
    ensures { IfOk result (told.IsTreeOf tokens.now) }
{
    match parse(alloc, tokens) {
        Ok(program) => Ok(Some(program)),
        Err(ParseError::NoMemory) => Err(NoMemory),
        Err(ParseError::Parse { .. } | ParseError::Nesting) => Ok(None),
    }
}

/// The nodes of the program's main stream, where it is known.
fn nodes_of(alloc: Global, stream: &Option<Stream>) -> Result<Option<Preorder>, NoMemory>
    ensures { IfOk result (told.AreNodesOf stream.now) }
{
    match stream {
        Some(stream) => Ok(Some(preorder_of(alloc, stream)?)),
        None => Ok(None),
    }
}

/// The paths of these nodes.
fn paths_in(alloc: Global, stream: &Option<Stream>) -> Result<Vec<Vec<u8>>, NoMemory> {
    match stream {
        Some(stream) => Ok(paths_of(alloc, stream)?),
        None => Ok(Vec::new(alloc)),
    }
}

/// The message of a refusal whose rule is broken at this site.
#[tactic(auto, using(crate::proofs::Telling::site_told))]
fn write_at(
    known: Known<'_>,
    refusal: &Refusal,
    within: &Within,
    site: Site,
) -> Result<Message, NoMemory>
    ensures { IfOk result (told.TellsSite known.entry.source.text.now
        known.entry.source.tokens.now (option_map (λ m. m.now) known.entry.source.main)
        (option_map (λ p. p.now) known.entry.program) (option_map (λ n. n.now) known.entry.nodes)
        (option_map (λ g. g.now) known.entry.graph) site refusal.now) }
{
    match pair_message(known, refusal, site)? {
        Some(message) => Ok(message),
        None => alone_message(known, refusal, within, site),
    }
}

/// The message about one part: its sentence, in which instance of a stream it is, and a hint.
fn alone_message(
    known: Known<'_>,
    refusal: &Refusal,
    within: &Within,
    site: Site,
) -> Result<Message, NoMemory>
    ensures { IfOk result (told.TellsAlone known.entry.source.text.now
        known.entry.source.tokens.now (option_map (λ m. m.now) known.entry.source.main)
        (option_map (λ p. p.now) known.entry.program) (option_map (λ n. n.now) known.entry.nodes)
        (option_map (λ g. g.now) known.entry.graph) site refusal.now) }
{
    let place = place_of_refusal(known, refusal, site)?;
    let mut message = Message::new(known.alloc);
    push_sentence(&mut message, known, refusal, site, place)?;
    push_within(
        known.alloc,
        &mut message,
        within,
        can_depend_on_arguments(refusal, site),
    )?;
    push_hint(&mut message, known, refusal, site, place)?;
    Ok(message.about(MessageKind::Plain, place))
}

/// The sentence, about this place.
fn push_sentence(
    message: &mut Message,
    known: Known<'_>,
    refusal: &Refusal,
    site: Site,
    place: Option<Span>,
) -> Result<(), NoMemory>
    ensures { OnOk result (Adds (words.AreWordsOf known.entry.source.text.now
        known.entry.source.tokens.now (option_map (λ m. m.now) known.entry.source.main)
        (option_map (λ p. p.now) known.entry.program) (option_map (λ g. g.now) known.entry.graph)
        site place refusal.now) message.old message.new) }
{
    let source = known.source;
    match refusal {
        Refusal::Parse { token } => push_syntax(known.alloc, message, source, *token),
        Refusal::NoMain => Ok(message.add(no_main(known))?),
        Refusal::UnknownName { name } => {
            message.quoted(name.as_bytes())?;
            Ok(message.add(b" isn't declared here")?)
        }
        Refusal::TypeMismatch { .. } => match site.mismatch {
            Some(mismatch) => Ok(push_mismatch(message, known, mismatch, place)?),
            None => Ok(message.add(plain_sentence(source, refusal))?),
        },
        Refusal::RateMismatch {
            node,
            declared,
            counted,
        } => {
            push_known_node(message, known, *node)?;
            push_rates(
                message,
                moved_at(known, *node, refusal)?,
                *declared,
                *counted,
            )
        }
        Refusal::RateLimit { node } => {
            push_known_node(message, known, *node)?;
            push_limit(message, moved_at(known, *node, refusal)?)
        }
        Refusal::RateUnknown { node } | Refusal::PeekOutside { node } => {
            push_known_node(message, known, *node)?;
            Ok(message.add(plain_sentence(source, refusal))?)
        }
        Refusal::ConstFault { cause } => push_start_fault(message, *cause, site.trapped),
        Refusal::Inconsistent { channel } => push_unbalanced(message, known, *channel),
        Refusal::BufferLimit { channel } => {
            push_channel(message, known.named_graph(), *channel)?;
            Ok(message.add(plain_sentence(source, refusal))?)
        }
        Refusal::CountsTooLarge => push_large(message, known),
        Refusal::Deadlock { .. } => {
            message.add(plain_sentence(source, refusal))?;
            Ok(push_stuck_loop(known.alloc, message, known.named_graph())?)
        }
        _ => Ok(message.add(plain_sentence(source, refusal))?),
    }
}

/// A node of the graph, as far as it is known.
fn push_known_node(message: &mut Message, known: Known<'_>, node: usize) -> Result<(), AllocError>
    ensures { OnOk result (Adds (words.AreNodeWords (option_map (λ g. g.now) known.entry.graph)
        node) message.old message.new) }
{
    match known.graph {
        Some(graph) => {
            let paths = known.paths;
            Ok(push_node(message, Some(NamedGraph { graph, paths }), node)?)
        }
        None => push_node(message, None, node),
    }
}

/// Whether a rule of elaboration may be broken by one instance of a stream and kept by another.
fn can_depend_on_arguments(refusal: &Refusal, site: Site) -> bool
    ensures { result ≡ words.can_depend_on_arguments refusal.now site }
{
    match refusal {
        Refusal::ConstFault { .. }
        | Refusal::BadWeights { .. }
        | Refusal::DepthLimit
        | Refusal::NodeLimit => true,
        Refusal::TypeMismatch { .. } => matches!(site.mismatch, Some(Mismatch::Missing(..))),
        _ => false,
    }
}

/// The stream that breaks a rule of elaboration, where it has parameters, with their values, if
/// the rule can depend on them.
fn push_within(
    alloc: Global,
    message: &mut Message,
    within: &Within,
    depends: bool,
) -> Result<(), NoMemory>
    ensures { OnOk result (Adds (words.AreWithinWords depends) message.old message.new) }
{
    match within.stream() {
        Some(added) if depends && !added.arguments.is_empty() => {
            let name = name_of(alloc, added)?;
            message.add(b", in ")?;
            Ok(message.quoted(&name)?)
        }
        _ => Ok(()),
    }
}

/// Why there is no main stream.
fn no_main(known: Known<'_>) -> &'static [u8]
    ensures { result.now ≡ words.mainless_words
        (option_map (λ m. m.now) known.entry.source.main)
        (option_map (λ p. p.now) known.entry.program) }
{
    match known.source.main {
        Some(name) => match known.declaration_named(name.as_bytes()) {
            Some(_) => b"the stream that --main names isn't void->void without parameters",
            None => b"no stream is declared with the name that --main gives",
        },
        None => b"no stream is declared void->void without parameters",
    }
}

/// A channel that can't be balanced, and how many items come to its ends, where that is known.
fn push_unbalanced(message: &mut Message, known: Known<'_>, channel: usize) -> Result<(), NoMemory>
    ensures { OnOk result (Adds (words.AreUnbalancedWords channel) message.old message.new) }
{
    push_channel(message, known.named_graph(), channel)?;
    message.add(b" can't be balanced")?;
    match items_at(known, channel)? {
        Some(items) => push_items(message, items),
        None => Ok(()),
    }
}

/// How many items come to the ends of a channel that can't be balanced, where that is known.
fn items_at(known: Known<'_>, channel: usize) -> Result<Option<Unbalanced>, NoMemory> {
    match known.graph {
        Some(graph) => unbalanced_items(known.alloc, graph, channel),
        None => Ok(None),
    }
}

/// How many items come to the ends of a channel.
fn push_items(message: &mut Message, items: Unbalanced) -> Result<(), NoMemory>
    ensures { OnOk result (Adds (BeginsWith []) message.old message.new) }
{
    message.add(b": where ")?;
    message.number(items.pushed.min(u128::from(u64::MAX)) as u64)?;
    message.add(match items.pushed {
        1 => b" item is pushed".as_slice(),
        _ => b" items are pushed".as_slice(),
    })?;
    message.add(b", the other channels want ")?;
    message.number(items.popped.min(u128::from(u64::MAX)) as u64)?;
    Ok(message.add(b" to be popped")?)
}

/// The channel whose rates make the counts of a round too large, where it is known.
fn push_large(message: &mut Message, known: Known<'_>) -> Result<(), NoMemory>
    ensures { OnOk result (Adds words.AreCountWords message.old message.new) }
{
    if let Some(graph) = known.graph {
        if let Some(channel) = large_channel(known.alloc, graph)? {
            push_channel(message, known.named_graph(), channel)?;
            return Ok(message.add(b" makes a node fire more than 1,000,000 times in a round")?);
        }
    }
    Ok(message.add(b"a node would fire more than 1,000,000 times in a round")?)
}

/// The rate of a node that a refusal is about, where it is known.
fn moved_at(known: Known<'_>, node: usize, refusal: &Refusal) -> Result<Option<Moved>, NoMemory> {
    match code_of(known, node) {
        Some(code) => moved_of(known.alloc, code, refusal),
        None => Ok(None),
    }
}

/// A filter whose text doesn't push or pop what it declares.
fn push_rates(
    message: &mut Message,
    moved: Option<Moved>,
    declared: u32,
    counted: u32,
) -> Result<(), NoMemory>
    ensures { OnOk result (Adds (words.AreRateWords declared counted) message.old message.new) }
{
    message.add(b" declares a ")?;
    push_side(message, moved)?;
    message.add(b"rate of ")?;
    message.number(u64::from(declared))?;
    message.add(b", and its statements come to ")?;
    Ok(message.number(u64::from(counted))?)
}

/// Which rate is meant, where that is known.
fn push_side(message: &mut Message, moved: Option<Moved>) -> Result<(), AllocError>
    ensures { OnOk result (message.new ≡ with_more message.old (words.side_words moved)) }
{
    match moved {
        Some(moved) => {
            message.quoted(rate_keyword(moved.side).text())?;
            message.add(b" ")
        }
        None => Ok(()),
    }
}

/// A filter with a rate that isn't allowed.
fn push_limit(message: &mut Message, moved: Option<Moved>) -> Result<(), NoMemory>
    ensures { OnOk result (Adds words.AreLimitWords message.old message.new) }
{
    match moved {
        Some(moved) => {
            message.add(b" has a ")?;
            message.quoted(rate_keyword(moved.side).text())?;
            Ok(message.add(limit_words(moved.declared))?)
        }
        None => Ok(message.add(b" has a rate that isn't allowed")?),
    }
}

/// What is wrong with a rate.
fn limit_words(declared: i32) -> &'static [u8]
    ensures { result.now ≡ words.limit_words declared }
{
    if declared < 0 {
        b" rate below 0"
    } else if declared == 0 {
        b" rate of 0 or none, and moves items on this side"
    } else {
        b" rate above 65,536"
    }
}
