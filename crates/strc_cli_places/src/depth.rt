// Where statements or expressions become nested too deep.

use std::alloc::Global;
use strc_lex::token::Token;
use strc_lex_names::memory::NoMemory;
use strc_lex_names::place::Span;
use strc_parse::{ParseError, parse};

/// More tokens aren't read again.
const LONGEST: usize = 100_000;

/// The token at which the nesting gets too deep: the last one of the shortest beginning that is
/// refused for it.
pub fn deepest_token(alloc: Global, tokens: &[Token]) -> Result<Option<Span>, NoMemory> {
    if tokens.len() > LONGEST {
        return Ok(None);
    }
    let mut least: usize = 0;
    let mut most = tokens.len();
    for _half in 0..64 {
        let middle = least.saturating_add(most.saturating_sub(least) / 2);
        if middle == least {
            break;
        }
        if is_too_deep(alloc, tokens, middle)? {
            most = middle;
        } else {
            least = middle;
        }
    }
    match tokens.get(least) {
        Some(token) => Ok(Some(token.span)),
        None => Ok(None),
    }
}

/// Whether the beginning of so many tokens is nested too deep.
fn is_too_deep(alloc: Global, tokens: &[Token], count: usize) -> Result<bool, NoMemory> {
    match parse(alloc, &tokens[..count.min(tokens.len())]) {
        Err(ParseError::Nesting) => Ok(true),
        Err(ParseError::NoMemory) => Err(NoMemory),
        _ => Ok(false),
    }
}
