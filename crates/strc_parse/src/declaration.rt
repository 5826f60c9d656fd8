// Named streams and programs.

ghost use Rattle.std.specs.Prelude.{◌≡◌, map, [], IfOk};
ghost use Rattle.strc_parse_tree.specs.View.{declaration_view};
ghost use Rattle.strc_parse_grammar.specs.Grammar.{kinds, height_limit};
ghost use Rattle.strc_parse.specs.Seen.{seen_stream_heading, seen_declaration};
ghost use Rattle.strc_parse_grammar.specs.Streams as spec;
ghost use Rattle.strc_parse_grammar.specs.Reading.{Gives};
ghost use Rattle.strc_parse.specs.Placed.{AreStreamsPlaced, IsReadPlaced};

use crate::control::{members, statements};
use std::alloc::Global;
use strc_lex::token::{Keyword, Punctuation, Token};
use strc_lex_names::name::Name;
use strc_parse_grammar::lookahead::{expect, is_keyword, name, tail, unexpected};
use strc_parse_grammar::parameter::parameters;
use strc_parse_grammar::rule_result::Parsed;
use strc_parse_grammar::stream_type::{composite_kind, stream_type};
use strc_parse_grammar::{HEIGHT_LIMIT, ReadError};
use strc_parse_tree::tree::{
    CompositeKind, CompositeTree, Decl, FilterTree, StreamTree, StreamType,
};

/// The name of a stream, its parameters and the brace that opens it.
#[tactic(auto, unfolding(strc_parse_grammar::specs::Streams::heading))]
fn heading(
    alloc: Global,
    tokens: &[Token],
) -> Result<(Name, Option<Vec<Name>>, &[Token]), ReadError>
    ensures { Gives seen_stream_heading result (spec.heading (kinds tokens.now)) }
{
    let (called, rest) = name(tokens)?;
    let (parameters, rest) = parameters(alloc, rest)?;
    let rest = expect(Punctuation::OpenBrace, rest)?;
    Ok((called, parameters, rest))
}

/// A filter: after its keyword.
#[tactic(auto, unfolding(strc_parse_grammar::specs::Streams::filter))]
fn filter<'t>(
    alloc: Global,
    all: &'t [Token],
    types: StreamType,
    tokens: &'t [Token],
) -> Result<(Decl, &'t [Token]), ReadError>
    ensures gives { Gives seen_declaration result
        (spec.filter height_limit types (kinds tokens.now)) }
    ensures placed { IfOk result (IsReadPlaced all.now) }
{
    let (name, parameters, rest) = heading(alloc, tokens)?;
    let read = members(alloc, all, HEIGHT_LIMIT, rest)?;
    let members = read.value;
    let stream = StreamTree::Filter(FilterTree {
        input: types.input,
        output: types.output,
        members,
    });
    let declared = Decl {
        name,
        parameters,
        stream,
    };
    Ok((declared, read.rest))
}

/// A composite stream: after its kind.
#[tactic(auto, unfolding(strc_parse_grammar::specs::Streams::composite))]
fn composite<'t>(
    alloc: Global,
    all: &'t [Token],
    types: StreamType,
    kind: CompositeKind,
    tokens: &'t [Token],
) -> Result<(Decl, &'t [Token]), ReadError>
    ensures gives { Gives seen_declaration result
        (spec.composite height_limit types kind (kinds tokens.now)) }
    ensures placed { IfOk result (IsReadPlaced all.now) }
{
    let (name, parameters, rest) = heading(alloc, tokens)?;
    let read = statements(alloc, all, HEIGHT_LIMIT, rest)?;
    let block = read.value;
    let stream = StreamTree::Composite(CompositeTree { types, kind, block });
    let declared = Decl {
        name,
        parameters,
        stream,
    };
    Ok((declared, read.rest))
}

/// A stream: after its type.
#[tactic(auto, unfolding(strc_parse_grammar::specs::Streams::stream))]
fn stream<'t>(
    alloc: Global,
    all: &'t [Token],
    types: StreamType,
    tokens: &'t [Token],
) -> Result<(Decl, &'t [Token]), ReadError>
    ensures gives { Gives seen_declaration result
        (spec.stream height_limit types (kinds tokens.now)) }
    ensures placed { IfOk result (IsReadPlaced all.now) }
{
    if is_keyword(Keyword::Filter, tokens) {
        return filter(alloc, all, types, tail(tokens));
    }
    match composite_kind(tokens) {
        None => Err(unexpected(tokens)),
        Some(kind) => composite(alloc, all, types, kind, tail(tokens)),
    }
}

#[tactic(auto, unfolding(strc_parse_grammar::specs::Streams::declaration))]
fn declaration<'t>(
    alloc: Global,
    all: &'t [Token],
    tokens: &'t [Token],
) -> Result<(Decl, &'t [Token]), ReadError>
    ensures gives { Gives seen_declaration result
        (spec.declaration height_limit (kinds tokens.now)) }
    ensures placed { IfOk result (IsReadPlaced all.now) }
{
    let (types, rest) = stream_type(tokens)?;
    stream(alloc, all, types, rest)
}

/// All declarations of a text.
#[tactic(auto, unfolding(strc_parse_grammar::specs::Streams::declarations))]
pub(crate) fn declarations(alloc: Global, tokens: &[Token]) -> Result<Vec<Decl>, ReadError>
    ensures gives { Gives (λ v. (map declaration_view v.items, [])) result
        (spec.declarations height_limit (kinds tokens.entry.now)) }
    ensures placed { IfOk result (λ v. AreStreamsPlaced tokens.entry.now v.items []) }
{
    let mut found = Vec::new(alloc);
    let mut rest = tokens;
    while !rest.is_empty() {
        let (next, after) = declaration(alloc, tokens, rest)?;
        found.push(next)?;
        rest = after;
    }
    Ok(found)
}
