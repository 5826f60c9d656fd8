// What a person reads of a run that ends early, or that isn't run.

ghost use Rattle.std.specs.Prelude.{◌≡◌, IfOk, OnOk, slice_get};
ghost use Rattle.std.specs.Fmt.{signed_decimal};
ghost use Rattle.std.specs.Option.{option_map};
ghost use Rattle.strc_cli_places.specs.Nodes.{MarksName};
ghost use Rattle.strc_cli_places.specs.Refused as spec;
ghost use Rattle.strc_cli_places.specs.Refused.{MarksFaultOf};
ghost use Rattle.strc_cli_statements.specs.Statements.{fault_place};
ghost use Rattle.strc_cli_diagnostics.specs.Messages.{with_more};
ghost use Rattle.strc_cli_diagnostics.specs.declared.message.MessageKind.TheVariants as kind;
ghost use Rattle.strc_cli_source.specs.NodeWords.{Adds};
ghost use Rattle.strc_cli_messages.specs.RefusalWords as words;
ghost use Rattle.strc_cli_messages.specs.Sentences as sentences;
ghost use Rattle.strc_cli_messages.specs.Told as told;

use crate::refusal::tokens_of;
use crate::sentences::start_fault_sentence;
use std::alloc::Global;
use strc_cli_diagnostics::message::{Message, MessageKind};
use strc_cli_places::trapped::trapped_part;
use strc_cli_source::nodes::{NamedGraph, push_node};
use strc_cli_source::operators::faulting_part;
use strc_cli_source::source::Source;
use strc_cli_source::spelling::spelled_or_first;
use strc_cli_source::tokens::keyword_before;
use strc_cli_statements::bodies::faulting_statement;
use strc_elab_graph::graph::{Graph, Node};
use strc_elab_graph::instance::Instance;
use strc_lex::token::Keyword;
use strc_lex_names::memory::NoMemory;
use strc_lex_names::place::Span;
use strc_parse_tree::tree::{FilterTree, Member, Stmt};
use strc_sched_outcome::outcome::Round;
use strc_sched_outcome::run_refusal::RunRefusal;
use strc_work_meaning::body::Body;
use strc_work_meaning::fault::{Cause, LocatedCause, Trapped};

/// A firing that faulted.
#[derive(Drop)]
pub struct FaultSite {
    /// The node, by its number.
    pub node: u32,
    /// How often it had fired before.
    pub firing: u64,
    pub round: Round,
    pub cause: LocatedCause,
}

/// What a person reads of a fault in the run of a flat graph: the place of the statement or the
/// filter, and one sentence with the node's name, its firing and the round.
///
/// `main` is the main stream that was asked for, and `paths` are those of the nodes, as far as they
/// are known.
pub fn fault_message<'a>(
    alloc: Global,
    text: &'a [u8],
    main: Option<&'a str>,
    graph: &Graph,
    paths: &[Vec<u8>],
    fault: &FaultSite,
) -> Result<Message, NoMemory>
    // It is about the part of the body that faults, where only one can, or about its filter.
    // And it says which node, which firing and which round.
    ensures { IfOk result (told.TellsFaultOfText text.now graph.now.nodes fault.now.node
        fault.now.firing fault.now.round fault.now.cause) }
{
    let tokens = tokens_of(alloc, text)?;
    let source = Source {
        text,
        tokens: &tokens,
        main,
    };
    write_fault(alloc, source, graph, paths, fault)
}

fn write_fault(
    alloc: Global,
    source: Source<'_>,
    graph: &Graph,
    paths: &[Vec<u8>],
    fault: &FaultSite,
) -> Result<Message, NoMemory>
    ensures { IfOk result (told.TellsFault source.entry.text.now source.entry.tokens.now
        graph.now.nodes (option_map (λ p. p.items) (slice_get paths.now fault.now.node))
        fault.now.node fault.now.firing fault.now.round fault.now.cause) }
{
    let place = place_of_fault(alloc, source, graph, fault)?;
    let mut message = Message::new(alloc);
    push_node(
        &mut message,
        Some(NamedGraph { graph, paths }),
        fault.node as usize,
    )?;
    push_cause(&mut message, &fault.cause)?;
    message.add(b" in its firing ")?;
    message.number(fault.firing)?;
    push_round(&mut message, fault.round)?;
    Ok(message.about(MessageKind::Plain, place))
}

/// The operator, the array, the look, the loop or the call that faulted, where that is known, or
/// else the statement; else the filter.
fn place_of_fault(
    alloc: Global,
    source: Source<'_>,
    graph: &Graph,
    fault: &FaultSite,
) -> Result<Option<Span>, NoMemory>
    ensures { IfOk result (MarksFaultOf source.entry.text.now source.entry.tokens.now
        fault.now.cause (spec.body_fired fault.now.firing)
        (slice_get graph.now.nodes fault.now.node)) }
{
    let Some(Node::Filter(instance)) = graph.nodes().get(fault.node as usize) else {
        return Ok(None);
    };
    place_in_filter(
        alloc,
        source,
        instance,
        body_fired(fault.firing),
        fault.cause.cause(),
        fault.cause.byte(),
    )
}

/// What ends a body's firing so at this byte, if that is known, or else the statement; else the
/// filter.
fn place_in_filter(
    alloc: Global,
    source: Source<'_>,
    instance: &Instance,
    body: Body,
    cause: Cause,
    byte: Option<usize>,
) -> Result<Option<Span>, NoMemory>
    ensures { IfOk result (spec.MarksElse (spec.trapped_part source.entry.tokens.now cause byte)
        (spec.MarksPart source.entry.text.now source.entry.tokens.now cause instance.now.name
        (fault_place cause body instance.now.code))) }
{
    if let Some(part) = trapped_part(source, cause, byte) {
        return Ok(Some(part));
    }
    match faulting_statement(alloc, &instance.code, body, cause)? {
        Some(statement) => Ok(Some(faulting_part(source, statement, cause))),
        None => Ok(place_of_filter(source, instance)),
    }
}

/// The body of a firing, by the number of firings before it.
fn body_fired(before: u64) -> Body
    ensures { result ≡ spec.body_fired before }
{
    if before == 0 {
        Body::Prework
    } else {
        Body::Work
    }
}

/// The name by which a filter is declared, or else the statement that adds it.
fn place_of_filter(source: Source<'_>, instance: &Instance) -> Option<Span>
    ensures { MarksName source.entry.text.now source.entry.tokens.now instance.now.name result }
{
    match &instance.name {
        Some(name) => spelled_or_first(source, name.place(), name.as_bytes()),
        None => heading_before(source, first_place(instance.code.tree())?.start),
    }
}

/// The statement that adds the filter without a name that has this byte of the text.
fn heading_before(source: Source<'_>, inside: usize) -> Option<Span> {
    let filter = keyword_before(source.tokens, inside, Keyword::Filter)?;
    let mut start = filter.start;
    for keyword in [Keyword::Add, Keyword::Body, Keyword::Loop] {
        if let Some(found) = keyword_before(source.tokens, filter.start, keyword) {
            start = if start == filter.start {
                found.start
            } else {
                start.max(found.start)
            };
        }
    }
    Some(Span {
        start,
        end: filter.end,
    })
}

/// The first place in a filter's text that is known.
fn first_place(tree: &FilterTree) -> Option<Span> {
    tree.members.iter().find_map(|member| match member {
        Member::Fields(variables) => Some(variables.place),
        Member::Prework(rates, block) | Member::Work(rates, block) => match rates.first() {
            Some(rate) => Some(rate.place),
            None => block_place(block),
        },
        Member::Init(block) | Member::Helper(_, _, _, block) => block_place(block),
    })
}

fn block_place(block: &[Stmt]) -> Option<Span> {
    match block.first() {
        Some(Stmt::Placed(place, _)) => Some(*place),
        _ => None,
    }
}

/// What a firing did.
fn push_cause(message: &mut Message, cause: &LocatedCause) -> Result<(), NoMemory>
    ensures { OnOk result (Adds (sentences.AreCauseWords cause.now) message.old message.new) }
{
    push_trapped(message, cause.cause(), cause.trapped())?;
    Ok(())
}

/// What it did, with what is known of what trapped.
fn push_trapped(message: &mut Message, cause: Cause, trapped: Trapped) -> Result<(), NoMemory>
    ensures { OnOk result (message.new
        ≡ with_more message.old (sentences.cause_words cause trapped)) }
{
    match cause {
        Cause::DivZero => Ok(message.add(b" divides by zero")?),
        Cause::Index => Ok(push_index(message, trapped)?),
        Cause::PeekRange => Ok(push_look(message, trapped)?),
        Cause::Turns => Ok(message.add(b" makes more than 1,000,000 turns of loops and calls")?),
        Cause::Calls => Ok(message.add(b" has more than 64 calls running at once")?),
    }
}

/// Which index was outside of its array, where that was noted.
fn push_index(message: &mut Message, trapped: Trapped) -> Result<(), NoMemory>
    ensures { OnOk result (message.new
        ≡ with_more message.old (sentences.index_words trapped)) }
{
    if trapped.count == 0 {
        return Ok(message.add(b" uses an index outside of its array")?);
    }
    message.add(b" uses index ")?;
    push_signed(message, trapped.index)?;
    message.add(b" of an array of ")?;
    Ok(message.number(u64::from(trapped.count))?)
}

/// Which item wasn't in the window, where that was noted.
fn push_look(message: &mut Message, trapped: Trapped) -> Result<(), NoMemory>
    ensures { OnOk result (message.new
        ≡ with_more message.old (sentences.look_words trapped)) }
{
    if trapped.count == 0 {
        return Ok(message.add(b" looks at an item outside of its window")?);
    }
    message.add(b" looks at peek(")?;
    push_signed(message, trapped.index)?;
    if trapped.index < 0 {
        return Ok(message.add(b"), before its window,")?);
    }
    message.add(b"), past peek(")?;
    message.number(u64::from(trapped.count - 1))?;
    Ok(message.add(b"), the last of its window,")?)
}

/// What faults while the streams are put together: which index, where that was noted.
pub(crate) fn push_start_fault(
    message: &mut Message,
    cause: Cause,
    trapped: Trapped,
) -> Result<(), NoMemory>
    ensures { OnOk result (message.new
        ≡ with_more message.old (words.trapped_words cause trapped)) }
{
    match cause {
        Cause::Index => push_start_index(message, trapped),
        _ => Ok(message.add(start_fault_sentence(cause))?),
    }
}

/// Which index is outside of its array, where that was noted.
fn push_start_index(message: &mut Message, trapped: Trapped) -> Result<(), NoMemory>
    ensures { OnOk result (message.new
        ≡ with_more message.old (words.start_index_words trapped)) }
{
    if trapped.count == 0 {
        return Ok(message.add(start_fault_sentence(Cause::Index))?);
    }
    message.add(b"index ")?;
    push_signed(message, trapped.index)?;
    message.add(b" of an array of ")?;
    message.number(u64::from(trapped.count))?;
    Ok(message.add(b" is used while the streams are put together")?)
}

/// A number in decimal, with its sign.
fn push_signed(message: &mut Message, number: i32) -> Result<(), NoMemory>
    ensures { OnOk result (message.new ≡ with_more message.old (signed_decimal number)) }
{
    if number < 0 {
        message.add(b"-")?;
    }
    Ok(message.number(u64::from(number.unsigned_abs()))?)
}

/// When it was.
fn push_round(message: &mut Message, round: Round) -> Result<(), NoMemory>
    ensures { OnOk result (message.new
        ≡ with_more message.old (sentences.round_words round)) }
{
    match round {
        Round::Startup => Ok(message.add(b", before the first round")?),
        Round::At(number) => {
            message.add(b", in round ")?;
            message.number(u64::from(number))?;
            Ok(message.add(b" (both count from 0)")?)
        }
    }
}

/// What a person reads where an accepted text isn't run.
pub fn not_run_message(alloc: Global, refusal: RunRefusal) -> Result<Message, NoMemory>
    ensures { IfOk result (told.TellsOfKind kind.Plain) }
{
    let mut message = Message::new(alloc);
    match refusal {
        RunRefusal::InputShort { need, got } => {
            message.add(b"start-up, and such rounds as --rounds asks for, read ")?;
            message.number(need)?;
            message.add(b" numbers, and the input has ")?;
            message.number(got)?;
        }
        RunRefusal::RoundsNeeded => {
            message.add(b"the program reads no input: say how many rounds with --rounds N")?;
        }
        RunRefusal::BadWorkers => message.add(b"the number of workers is from 1 to 64")?,
        RunRefusal::NoMemory => message.add(b"out of memory")?,
        RunRefusal::NoWorker => message.add(b"no thread could be started")?,
    }
    Ok(message.about(MessageKind::Plain, None))
}

/// What a person reads of a word of the input that isn't a number; words count from 0.
pub fn bad_input_message(alloc: Global, word: u64) -> Result<Message, NoMemory>
    ensures { IfOk result (told.TellsOfKind kind.Input) }
{
    let mut message = Message::new(alloc);
    message.add(b"word ")?;
    message.number(word)?;
    message.add(b" (the first one is word 0) is no number from -2147483648 to 2147483647")?;
    Ok(message.about(MessageKind::Input, None))
}

/// What a person reads where a program's C would have so many items, too many.
pub fn array_limit_message(alloc: Global, items: u64) -> Result<Message, NoMemory>
    ensures { IfOk result (told.TellsOfKind kind.Plain) }
{
    let mut message = Message::new(alloc);
    message.add(b"its C would have ")?;
    message.number(items)?;
    message.add(b" items, more than 268435456: a round moves, or filters hold, too many")?;
    let told = message.about(MessageKind::Plain, None);
    Ok(told)
}
