// What could be where a token can't.

use std::alloc::Global;
use strc_lex::lexer::lex;
use strc_lex::token::{Keyword, Punctuation};
use strc_lex_names::memory::NoMemory;
use strc_parse::{ParseError, parse};

/// The longest text that is read again and again, in bytes.
const LONGEST: usize = 16_384;

/// How many tokens are named.
const NAMED: usize = 6;

/// The punctuation marks of the grammar.
const MARKS: [Punctuation; 39] = [
    Punctuation::Semicolon,
    Punctuation::Comma,
    Punctuation::OpenParen,
    Punctuation::CloseParen,
    Punctuation::OpenBrace,
    Punctuation::CloseBrace,
    Punctuation::OpenBracket,
    Punctuation::CloseBracket,
    Punctuation::Arrow,
    Punctuation::Assign,
    Punctuation::Question,
    Punctuation::Colon,
    Punctuation::Not,
    Punctuation::Tilde,
    Punctuation::PlusPlus,
    Punctuation::MinusMinus,
    Punctuation::PlusAssign,
    Punctuation::MinusAssign,
    Punctuation::StarAssign,
    Punctuation::SlashAssign,
    Punctuation::PercentAssign,
    Punctuation::Plus,
    Punctuation::Minus,
    Punctuation::Star,
    Punctuation::Slash,
    Punctuation::Percent,
    Punctuation::ShiftLeft,
    Punctuation::ShiftRight,
    Punctuation::Less,
    Punctuation::Greater,
    Punctuation::LessEqual,
    Punctuation::GreaterEqual,
    Punctuation::Equal,
    Punctuation::NotEqual,
    Punctuation::And,
    Punctuation::Or,
    Punctuation::Caret,
    Punctuation::AndAnd,
    Punctuation::OrOr,
];

/// What could be at a place.
#[derive(Drop)]
pub(crate) struct Expected {
    /// Any statement.
    pub(crate) statement: bool,
    /// Any expression.
    pub(crate) expression: bool,
    pub(crate) name: bool,
    pub(crate) operator: bool,
    /// These tokens, beside those with which what is said above begins.
    pub(crate) tokens: Vec<&'static [u8]>,
}

/// What could be after a text's beginning, which has so many tokens. It takes a reading of the
/// beginning for each kind of token, so it isn't found out for one that is longer.
pub(crate) fn expected_after(
    alloc: Global,
    beginning: &[u8],
    count: usize,
) -> Result<Option<Expected>, NoMemory> {
    if beginning.len() > LONGEST {
        return Ok(None);
    }
    let tried = Beginning {
        text: beginning,
        count,
    };
    let statement = tried.can_follow(alloc, Keyword::While.text())?;
    let expression = tried.can_follow(alloc, b"1")?;
    let name = tried.can_follow(alloc, b"x")?;
    let operator = tried.can_follow(alloc, Punctuation::Star.text())?;
    let mut expected = Expected {
        statement,
        expression,
        name,
        operator,
        tokens: Vec::new(alloc),
    };
    tried.add_keywords(alloc, &mut expected)?;
    tried.add_punctuation(alloc, &mut expected)?;
    Ok(Some(expected))
}

/// A beginning of a text, after which tokens are tried.
#[derive(Clone, Copy)]
struct Beginning<'a> {
    text: &'a [u8],
    count: usize,
}

impl<'a> Beginning<'a> {
    /// Whether a token can be there: a text that goes on with it is refused at a later token, if
    /// at all.
    fn can_follow(self, alloc: Global, token: &[u8]) -> Result<bool, NoMemory> {
        let mut text = Vec::new(alloc);
        text.extend_from_slice(self.text)?;
        text.extend_from_slice(b" ")?;
        text.extend_from_slice(token)?;
        let Ok(tokens) = lex(alloc, &text) else {
            return Ok(false);
        };
        match parse(alloc, &tokens) {
            Ok(_) => Ok(true),
            Err(ParseError::Parse { token }) => Ok(token > self.count),
            Err(ParseError::Nesting) => Ok(false),
            Err(ParseError::NoMemory) => Err(NoMemory),
        }
    }

    /// The keywords that can be there.
    fn add_keywords(self, alloc: Global, expected: &mut Expected) -> Result<(), NoMemory> {
        for keyword in Keyword::ALL {
            if expected.tokens.len() < NAMED
                && !expected.has_keyword(keyword)
                && self.can_follow(alloc, keyword.text())?
            {
                expected.tokens.push(keyword.text())?;
            }
        }
        Ok(())
    }

    /// The punctuation marks.
    fn add_punctuation(self, alloc: Global, expected: &mut Expected) -> Result<(), NoMemory> {
        for mark in MARKS {
            if expected.tokens.len() < NAMED
                && !expected.has_mark(mark)
                && self.can_follow(alloc, mark.text())?
            {
                expected.tokens.push(mark.text())?;
            }
        }
        Ok(())
    }
}

impl Expected {
    /// Whether a keyword begins what is expected anyhow.
    fn has_keyword(&self, keyword: Keyword) -> bool {
        if self.statement && begins_statement(keyword) {
            return true;
        }
        self.expression && begins_expression(keyword)
    }

    /// Whether a punctuation mark does.
    fn has_mark(&self, mark: Punctuation) -> bool {
        if self.statement && (mark == Punctuation::OpenBrace || mark == Punctuation::Semicolon) {
            return true;
        }
        if self.expression && is_prefix(mark) {
            return true;
        }
        self.operator && is_operator(mark)
    }
}

fn begins_statement(keyword: Keyword) -> bool {
    match keyword {
        Keyword::If
        | Keyword::While
        | Keyword::For
        | Keyword::Int
        | Keyword::Boolean
        | Keyword::Push
        | Keyword::Print
        | Keyword::Println
        | Keyword::Return
        | Keyword::Add
        | Keyword::Body
        | Keyword::Loop
        | Keyword::Split
        | Keyword::Join
        | Keyword::Enqueue => true,
        _ => false,
    }
}

fn begins_expression(keyword: Keyword) -> bool {
    match keyword {
        Keyword::Pop | Keyword::Peek | Keyword::True | Keyword::False => true,
        _ => false,
    }
}

/// Whether a mark is written before an operand.
fn is_prefix(mark: Punctuation) -> bool {
    match mark {
        Punctuation::OpenParen
        | Punctuation::Not
        | Punctuation::Minus
        | Punctuation::Tilde
        | Punctuation::PlusPlus
        | Punctuation::MinusMinus => true,
        _ => false,
    }
}

/// Whether a mark is written between operands, or changes what is before it.
fn is_operator(mark: Punctuation) -> bool {
    match mark {
        Punctuation::Semicolon
        | Punctuation::Comma
        | Punctuation::Colon
        | Punctuation::Arrow
        | Punctuation::OpenParen
        | Punctuation::CloseParen
        | Punctuation::OpenBrace
        | Punctuation::CloseBrace
        | Punctuation::OpenBracket
        | Punctuation::CloseBracket
        | Punctuation::Not
        | Punctuation::Tilde => false,
        _ => true,
    }
}
