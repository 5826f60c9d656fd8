// What a token is: a name, a number, a keyword, a punctuation mark or a string, and its place in
// the text.

pub use strc_lex_names::name::{Name, StringLiteral};
pub use strc_lex_names::place::Span;

/// A token and where it is in the text.
pub struct Token {
    pub kind: TokenKind,
    pub span: Span,
}

// Here and below a drop is written out: it is a call for the crates above, which would each prove
// a derived one anew.
impl Drop for Token {
    fn drop(self) {
        let Token { kind: _, span: _ } = self;
    }
}

/// What kind of token it is, with the name, the number or the text that it carries.
pub enum TokenKind {
    Name(Name),
    /// 0 to 2147483647, or the minimum, for which 2147483648 is written.
    Number(i32),
    Keyword(Keyword),
    Punctuation(Punctuation),
    /// A string.
    StringLiteral(StringLiteral),
}

impl Drop for TokenKind {
    fn drop(self) {
        match self {
            TokenKind::Name(_)
            | TokenKind::Number(_)
            | TokenKind::Keyword(_)
            | TokenKind::Punctuation(_)
            | TokenKind::StringLiteral(_) => {}
        }
    }
}

/// A keyword, named as it is written.
#[derive(Clone, Copy, PartialEq, Eq)]
pub enum Keyword {
    Filter,
    Pipeline,
    Splitjoin,
    Feedbackloop,
    Init,
    Prework,
    Work,
    Push,
    Pop,
    Peek,
    Add,
    Split,
    Join,
    Duplicate,
    Roundrobin,
    Body,
    Loop,
    Enqueue,
    If,
    Else,
    While,
    For,
    Int,
    Boolean,
    Void,
    True,
    False,
    Print,
    Println,
    Identity,
    FileReader,
    FileWriter,
    Break,
    Continue,
    Do,
    Return,
    Float,
    Complex,
    Bit,
    Struct,
    Portal,
}

/// A punctuation mark of one or two characters.
#[derive(Clone, Copy)]
pub enum Punctuation {
    /// `->`
    Arrow,
    /// `++`
    PlusPlus,
    /// `--`
    MinusMinus,
    /// `+=`
    PlusAssign,
    /// `-=`
    MinusAssign,
    /// `*=`
    StarAssign,
    /// `/=`
    SlashAssign,
    /// `%=`
    PercentAssign,
    /// `<<`
    ShiftLeft,
    /// `>>`
    ShiftRight,
    /// `<=`
    LessEqual,
    /// `>=`
    GreaterEqual,
    /// `==`
    Equal,
    /// `!=`
    NotEqual,
    /// `&&`
    AndAnd,
    /// `||`
    OrOr,
    /// `+`
    Plus,
    /// `-`
    Minus,
    /// `*`
    Star,
    /// `/`
    Slash,
    /// `%`
    Percent,
    /// `<`
    Less,
    /// `>`
    Greater,
    /// `=`
    Assign,
    /// `!`
    Not,
    /// `&`
    And,
    /// `|`
    Or,
    /// `^`
    Caret,
    /// `~`
    Tilde,
    /// `?`
    Question,
    /// `:`
    Colon,
    /// `;`
    Semicolon,
    /// `,`
    Comma,
    /// `(`
    OpenParen,
    /// `)`
    CloseParen,
    /// `{`
    OpenBrace,
    /// `}`
    CloseBrace,
    /// `[`
    OpenBracket,
    /// `]`
    CloseBracket,
}
