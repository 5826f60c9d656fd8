// How the punctuation marks are written: operators, brackets and separators.

ghost use Rattle.std.specs.Prelude.{◌≡◌};
ghost use Rattle.strc_lex.specs.PunctuationTexts.{punctuation_text};

use crate::token::Punctuation;

impl Punctuation {
    /// The punctuation of two characters.
    pub const PAIRS: [Punctuation; 16] = [
        Punctuation::Arrow,
        Punctuation::PlusPlus,
        Punctuation::MinusMinus,
        Punctuation::PlusAssign,
        Punctuation::MinusAssign,
        Punctuation::StarAssign,
        Punctuation::SlashAssign,
        Punctuation::PercentAssign,
        Punctuation::ShiftLeft,
        Punctuation::ShiftRight,
        Punctuation::LessEqual,
        Punctuation::GreaterEqual,
        Punctuation::Equal,
        Punctuation::NotEqual,
        Punctuation::AndAnd,
        Punctuation::OrOr,
    ];

    /// The punctuation of one character.
    pub const SINGLES: [Punctuation; 23] = [
        Punctuation::Plus,
        Punctuation::Minus,
        Punctuation::Star,
        Punctuation::Slash,
        Punctuation::Percent,
        Punctuation::Less,
        Punctuation::Greater,
        Punctuation::Assign,
        Punctuation::Not,
        Punctuation::And,
        Punctuation::Or,
        Punctuation::Caret,
        Punctuation::Tilde,
        Punctuation::Question,
        Punctuation::Colon,
        Punctuation::Semicolon,
        Punctuation::Comma,
        Punctuation::OpenParen,
        Punctuation::CloseParen,
        Punctuation::OpenBrace,
        Punctuation::CloseBrace,
        Punctuation::OpenBracket,
        Punctuation::CloseBracket,
    ];

    /// How the punctuation is written.
    pub fn text(self) -> &'static [u8]
        ensures { result.now ≡ punctuation_text self }
    {
        match self {
            Punctuation::Arrow => b"->",
            Punctuation::PlusPlus => b"++",
            Punctuation::MinusMinus => b"--",
            Punctuation::PlusAssign => b"+=",
            Punctuation::MinusAssign => b"-=",
            Punctuation::StarAssign => b"*=",
            Punctuation::SlashAssign => b"/=",
            Punctuation::PercentAssign => b"%=",
            Punctuation::ShiftLeft => b"<<",
            Punctuation::ShiftRight => b">>",
            Punctuation::LessEqual => b"<=",
            Punctuation::GreaterEqual => b">=",
            Punctuation::Equal => b"==",
            Punctuation::NotEqual => b"!=",
            Punctuation::AndAnd => b"&&",
            Punctuation::OrOr => b"||",
            Punctuation::Plus => b"+",
            Punctuation::Minus => b"-",
            Punctuation::Star => b"*",
            Punctuation::Slash => b"/",
            Punctuation::Percent => b"%",
            Punctuation::Less => b"<",
            Punctuation::Greater => b">",
            Punctuation::Assign => b"=",
            Punctuation::Not => b"!",
            Punctuation::And => b"&",
            Punctuation::Or => b"|",
            Punctuation::Caret => b"^",
            Punctuation::Tilde => b"~",
            Punctuation::Question => b"?",
            Punctuation::Colon => b":",
            Punctuation::Semicolon => b";",
            Punctuation::Comma => b",",
            Punctuation::OpenParen => b"(",
            Punctuation::CloseParen => b")",
            Punctuation::OpenBrace => b"{",
            Punctuation::CloseBrace => b"}",
            Punctuation::OpenBracket => b"[",
            Punctuation::CloseBracket => b"]",
        }
    }
}
