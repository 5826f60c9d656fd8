// How the keywords are written.

ghost use Rattle.std.specs.Prelude.{◌≡◌};
ghost use Rattle.strc_lex.specs.KeywordTexts.{keyword_text};

use crate::token::Keyword;

impl Keyword {
    /// Every keyword.
    pub const ALL: [Keyword; 41] = [
        Keyword::Filter,
        Keyword::Pipeline,
        Keyword::Splitjoin,
        Keyword::Feedbackloop,
        Keyword::Init,
        Keyword::Prework,
        Keyword::Work,
        Keyword::Push,
        Keyword::Pop,
        Keyword::Peek,
        Keyword::Add,
        Keyword::Split,
        Keyword::Join,
        Keyword::Duplicate,
        Keyword::Roundrobin,
        Keyword::Body,
        Keyword::Loop,
        Keyword::Enqueue,
        Keyword::If,
        Keyword::Else,
        Keyword::While,
        Keyword::For,
        Keyword::Int,
        Keyword::Boolean,
        Keyword::Void,
        Keyword::True,
        Keyword::False,
        Keyword::Print,
        Keyword::Println,
        Keyword::Identity,
        Keyword::FileReader,
        Keyword::FileWriter,
        Keyword::Break,
        Keyword::Continue,
        Keyword::Do,
        Keyword::Return,
        Keyword::Float,
        Keyword::Complex,
        Keyword::Bit,
        Keyword::Struct,
        Keyword::Portal,
    ];

    /// How the keyword is written.
    pub fn text(self) -> &'static [u8]
        ensures { result.now ≡ keyword_text self }
    {
        match self {
            Keyword::Filter => b"filter",
            Keyword::Pipeline => b"pipeline",
            Keyword::Splitjoin => b"splitjoin",
            Keyword::Feedbackloop => b"feedbackloop",
            Keyword::Init => b"init",
            Keyword::Prework => b"prework",
            Keyword::Work => b"work",
            Keyword::Push => b"push",
            Keyword::Pop => b"pop",
            Keyword::Peek => b"peek",
            Keyword::Add => b"add",
            Keyword::Split => b"split",
            Keyword::Join => b"join",
            Keyword::Duplicate => b"duplicate",
            Keyword::Roundrobin => b"roundrobin",
            Keyword::Body => b"body",
            Keyword::Loop => b"loop",
            Keyword::Enqueue => b"enqueue",
            Keyword::If => b"if",
            Keyword::Else => b"else",
            Keyword::While => b"while",
            Keyword::For => b"for",
            Keyword::Int => b"int",
            Keyword::Boolean => b"boolean",
            Keyword::Void => b"void",
            Keyword::True => b"true",
            Keyword::False => b"false",
            Keyword::Print => b"print",
            Keyword::Println => b"println",
            Keyword::Identity => b"Identity",
            Keyword::FileReader => b"FileReader",
            Keyword::FileWriter => b"FileWriter",
            Keyword::Break => b"break",
            Keyword::Continue => b"continue",
            Keyword::Do => b"do",
            Keyword::Return => b"return",
            Keyword::Float => b"float",
            Keyword::Complex => b"complex",
            Keyword::Bit => b"bit",
            Keyword::Struct => b"struct",
            Keyword::Portal => b"portal",
        }
    }
}
