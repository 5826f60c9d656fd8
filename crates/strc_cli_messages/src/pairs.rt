// What a person reads where two parts of a program don't go together: the second one is marked,
// and the sentence says where the first one is.

ghost use Rattle.std.specs.Prelude.{◌≡◌, ◌<◌, IfOk, IfSome, find, length, position};
ghost use Rattle.std.specs.Option.{option_map};
ghost use Rattle.strc_cli_places.specs.Parts.{declarations_of};
ghost use Rattle.strc_cli_messages.specs.RefusalWords as words;
ghost use Rattle.strc_cli_messages.specs.Told as told;

use std::alloc::Global;
use strc_cli_diagnostics::message::{Message, MessageKind};
use strc_cli_places::known::Known;
use strc_cli_places::origins::statement_of;
use strc_cli_places::pairs::pair_of;
use strc_cli_source::preorder::Preorder;
use strc_cli_syntax::place_words::push_place;
use strc_elab_statements::main_stream::can_be_main;
use strc_lex_names::memory::NoMemory;
use strc_parse_tree::tree::Decl;
use strc_run_refusal::refusal::Refusal;
use strc_work_rules::site::{Mismatch, Site};

/// The message, where the two parts are known.
pub(crate) fn pair_message(
    known: Known<'_>,
    refusal: &Refusal,
    site: Site,
) -> Result<Option<Message>, NoMemory>
    ensures { IfOk result (told.TellsTwo known.entry.source.text.now
        known.entry.source.tokens.now (option_map (λ m. m.now) known.entry.source.main)
        (option_map (λ p. p.now) known.entry.program) (option_map (λ n. n.now) known.entry.nodes)
        (option_map (λ g. g.now) known.entry.graph) site refusal.now) }
{
    match refusal {
        Refusal::ManyMains => two_mains(known),
        Refusal::TypeMismatch { .. } => two_of_a_name(known, site),
        Refusal::TwoInputs | Refusal::TapeTwice { .. } | Refusal::Disconnected => {
            two_nodes(known, refusal)
        }
        _ => Ok(None),
    }
}

/// Two declarations that could be the main stream.
fn two_mains(known: Known<'_>) -> Result<Option<Message>, NoMemory>
    ensures { IfOk result (told.TellsMains known.entry.source.text.now
        known.entry.source.tokens.now
        (told.second_main (declarations_of (option_map (λ p. p.now) known.entry.program)))) }
{
    let source = known.source;
    let Some((first, second)) = mains_of(known.declarations()) else {
        return Ok(None);
    };
    let place = known.place_of_name(second);
    let mut message = Message::new(known.alloc);
    message.quoted(second.name.as_bytes())?;
    message.add(b" could be the main stream, and so could ")?;
    message.quoted(first.name.as_bytes())?;
    push_place(&mut message, source.text, known.place_of_name(first))?;
    message.hint()?;
    message.add(b"name the one that is to run with --main NAME")?;
    Ok(Some(message.about(MessageKind::Plain, place)))
}

/// The first two declarations that could be the main stream.
fn mains_of(declarations: &[Decl]) -> Option<(&Decl, &Decl)>
    ensures { option_map (λ mains. mains.1.now) result ≡ told.second_main declarations.now }
{
    let first = first_main(declarations)?;
    let second = main_in(&declarations[first + 1..])?;
    Some((&declarations[first], second))
}

/// The first of these declarations that could be the main stream.
fn main_in(declarations: &[Decl]) -> Option<&Decl>
    ensures { option_map (λ main. main.now) result ≡ find told.could_be_main declarations.now }
{
    declarations.iter().find(|it| can_be_main(it))
}

/// The first declaration that could be the main stream, by its number.
fn first_main(declarations: &[Decl]) -> Option<usize>
    ensures found { result ≡ position told.could_be_main declarations.now }
    ensures within { IfSome result (λ first. first < length declarations.now) }
{
    declarations.iter().position(|it| can_be_main(it))
}

/// A declaration, and an earlier one of its name.
fn two_of_a_name(known: Known<'_>, site: Site) -> Result<Option<Message>, NoMemory>
    ensures { IfOk result (told.TellsIfAgain known.entry.source.text.now
        known.entry.source.tokens.now site) }
{
    match (site.mismatch, site.place) {
        (Some(Mismatch::StreamTwice(first)), Some(second)) => {
            let source = known.source;
            let place = Some(source.heading(second));
            let mut message = Message::new(known.alloc);
            message.quoted(source.bytes(second))?;
            message.add(b" is declared twice: here, and before it")?;
            push_place(&mut message, source.text, first)?;
            Ok(Some(message.about(MessageKind::Plain, place)))
        }
        _ => Ok(None),
    }
}

/// Two nodes.
fn two_nodes(known: Known<'_>, refusal: &Refusal) -> Result<Option<Message>, NoMemory>
    ensures { IfOk result (told.TellsNodes known.entry.source.tokens.now
        (option_map (λ m. m.now) known.entry.source.main)
        (option_map (λ p. p.now) known.entry.program) (option_map (λ n. n.now) known.entry.nodes)
        refusal.now) }
{
    let (alloc, source) = (known.alloc, known.source);
    let Some(order) = known.nodes else {
        return Ok(None);
    };
    let Some((first, second)) = pair_in(alloc, order, refusal)? else {
        return Ok(None);
    };
    let place = statement_of(known, second);
    let mut message = Message::new(alloc);
    order.push_name(&mut message, known.paths, second)?;
    message.add(joining_words(refusal))?;
    order.push_name(&mut message, known.paths, first)?;
    push_place(&mut message, source.text, statement_of(known, first))?;
    message.hint()?;
    message.add(pair_hint(refusal))?;
    Ok(Some(message.about(MessageKind::Plain, place)))
}

/// The first two nodes that don't go together.
#[tactic(auto, using(crate::proofs::Telling::pair_is))]
fn pair_in(
    alloc: Global,
    order: &Preorder,
    refusal: &Refusal,
) -> Result<Option<(usize, usize)>, NoMemory>
    ensures { IfOk result (told.IsPair refusal.now order.now) }
{
    pair_of(alloc, order, refusal)
}

fn joining_words(refusal: &Refusal) -> &'static [u8]
    ensures { result.now ≡ words.joining_words refusal.now }
{
    match refusal {
        Refusal::TwoInputs => b" takes the input, and so does ",
        Refusal::TapeTwice { .. } => b" writes to the same file as ",
        _ => b" isn't connected with ",
    }
}

fn pair_hint(refusal: &Refusal) -> &'static [u8] {
    match refusal {
        Refusal::TwoInputs => b"one FileReader is allowed: split what it gives",
        Refusal::TapeTwice { .. } => {
            b"each writer has a tape of its own: put another name between its quotes"
        }
        _ => b"each stream has to take what the one before it gives, or give to the one after it",
    }
}
