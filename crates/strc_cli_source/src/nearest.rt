// The declared name that is most like one that isn't.

use std::alloc::Global;
use strc_lex::token::{Keyword, Punctuation, Token, TokenKind};
use strc_lex_names::memory::NoMemory;
use strsim::generic_damerau_levenshtein;

/// Longer names aren't compared.
const LONGEST: usize = 64;

/// The name that is declared in a text and that takes the fewest changes of a letter, or swaps of
/// two neighbours, to become this one, where they are few; or that is the same but for capitals.
pub fn nearest_name<'a>(
    alloc: Global,
    tokens: &'a [Token],
    name: &[u8],
) -> Result<Option<&'a [u8]>, NoMemory> {
    let mut nearest = None;
    let mut least = allowed(name);
    for place in 1..tokens.len() {
        if let Some(found) = introduced(tokens, place) {
            if found != name && found.eq_ignore_ascii_case(name) {
                return Ok(Some(found));
            }
            let changes = distance(alloc, found, name)?;
            if changes != 0 && changes <= least {
                // The next one has to take fewer.
                least = changes - 1;
                nearest = Some(found);
            }
        }
    }
    Ok(nearest)
}

/// How many changes leave a name alike: one for each three letters, and three at most.
fn allowed(name: &[u8]) -> usize {
    if name.len() > LONGEST {
        0
    } else {
        (name.len() / 3).min(3)
    }
}

/// How many changes of a letter, or swaps of two neighbours, lead from one name to another.
fn distance(alloc: Global, found: &[u8], name: &[u8]) -> Result<usize, NoMemory> {
    if found.len() > LONGEST {
        return Ok(0);
    }
    Ok(generic_damerau_levenshtein(alloc, found, name)?)
}

/// The name at a place, where it is declared there: after a type, a kind of stream, or a comma.
fn introduced(tokens: &[Token], place: usize) -> Option<&[u8]> {
    if place == 0 || place >= tokens.len() || !introduces(&tokens[place - 1].kind) {
        return None;
    }
    match &tokens[place].kind {
        TokenKind::Name(name) => Some(name.as_bytes()),
        _ => None,
    }
}

fn introduces(kind: &TokenKind) -> bool {
    match kind {
        TokenKind::Keyword(keyword) => introduces_name(*keyword),
        TokenKind::Punctuation(Punctuation::CloseBracket | Punctuation::Comma) => true,
        _ => false,
    }
}

fn introduces_name(keyword: Keyword) -> bool {
    match keyword {
        Keyword::Filter
        | Keyword::Pipeline
        | Keyword::Splitjoin
        | Keyword::Feedbackloop
        | Keyword::Int
        | Keyword::Boolean => true,
        _ => false,
    }
}
