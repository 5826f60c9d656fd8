// Parameters of streams.

ghost use Rattle.std.specs.Prelude.{◌≡◌, ◌+◌, [], ◌∷◌};
ghost use Rattle.strc_parse_grammar.specs.Grammar.{kinds};
ghost use Rattle.strc_parse_grammar.specs.Seen.{seen, seen_names, seen_parameters};
ghost use Rattle.strc_parse_grammar.specs.Reading as spec;
ghost use Rattle.strc_parse_grammar.specs.Reading.{Gives};

use crate::ReadError;
use crate::lookahead::{expect_keyword, is_punctuation, name, tail};
use crate::part::before;
use std::alloc::Global;
use strc_lex::token::{Keyword, Punctuation, Token};
use strc_lex_names::name::Name;

/// `int n`
#[tactic(auto, unfolding(crate::specs::Reading::parameter))]
fn parameter(tokens: &[Token]) -> Result<(Name, &[Token]), ReadError>
    ensures { Gives seen result (spec.parameter (kinds tokens.now)) }
{
    let named = expect_keyword(Keyword::Int, tokens)?;
    name(named)
}

/// The parameters after these, each at its comma.
#[tactic(auto, unfolding(crate::specs::Reading::more_parameters))]
fn more_parameters(first: Vec<Name>, tokens: &[Token]) -> Result<(Vec<Name>, &[Token]), ReadError>
    ensures { Gives seen_names result (spec.more_parameters first.items (kinds tokens.entry.now)) }
{
    let mut found = first;
    let mut rest = tokens;
    while is_punctuation(Punctuation::Comma, rest) {
        let (next, after) = parameter(tail(rest))?;
        found.push(next)?;
        rest = after;
    }
    Ok((found, rest))
}

/// Parameters with commas between them, or none before the bracket that closes them.
#[tactic(auto, unfolding(crate::specs::Reading::listed_parameters))]
fn listed_parameters(alloc: Global, tokens: &[Token]) -> Result<(Vec<Name>, &[Token]), ReadError>
    ensures { Gives seen_names result (spec.listed_parameters (kinds tokens.now)) }
{
    let mut found = Vec::new(alloc);
    if is_punctuation(Punctuation::CloseParen, tokens) {
        return Ok((found, tokens));
    }
    let (first, rest) = parameter(tokens)?;
    found.push(first)?;
    more_parameters(found, rest)
}

/// `(int n, int m)`: after the bracket that opens.
#[tactic(auto, unfolding(crate::specs::Reading::closed_parameters))]
pub fn closed_parameters(
    alloc: Global,
    tokens: &[Token],
) -> Result<(Vec<Name>, &[Token]), ReadError>
    ensures { Gives seen_names result (spec.closed_parameters (kinds tokens.now)) }
{
    let (listed, rest) = listed_parameters(alloc, tokens)?;
    before(Punctuation::CloseParen, listed, rest)
}

/// `(int n, int m)`, if it comes next.
#[tactic(auto, unfolding(crate::specs::Reading::parameters))]
pub fn parameters(
    alloc: Global,
    tokens: &[Token],
) -> Result<(Option<Vec<Name>>, &[Token]), ReadError>
    ensures { Gives seen_parameters result (spec.parameters (kinds tokens.now)) }
{
    if !is_punctuation(Punctuation::OpenParen, tokens) {
        return Ok((None, tokens));
    }
    let (listed, rest) = closed_parameters(alloc, tail(tokens))?;
    Ok((Some(listed), rest))
}
