// Operators that C has too.

ghost use Rattle.std.specs.Prelude.{◌≡◌};
ghost use Rattle.strc_cli_syntax.specs.Words as spec;

use strc_cli_source::tokens::is_mark;
use strc_lex::token::{Punctuation, Token};

/// Whether a token is `&`, `^` or `|`.
pub fn is_bitwise(token: &Token) -> bool
    ensures { result ≡ spec.is_bitwise token.now.kind }
{
    is_mark(token, Punctuation::And)
        || is_mark(token, Punctuation::Caret)
        || is_mark(token, Punctuation::Or)
}
