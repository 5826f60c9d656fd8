// What is between tokens: white space and comments.

ghost use Rattle.std.specs.Prelude.{◌≡◌, ◌≢◌, ◌<◌, ◌≤◌, ℕ, length, drop, slice_index, codes};
ghost use Rattle.std.specs.Prelude.{IfSome, IfNone};
ghost use Rattle.strc_lex.specs.Trivia.{Reads, IsBlockComment, IsComment, IsTrivia, IsTriviaRun};

use crate::characters::is_white;

/// Where the white space and the comments that begin at a place end.
pub(crate) fn trivia_end(text: &[u8], from: usize) -> usize
    requires { from ≤ length text.now }
    ensures trivia_run { IsTriviaRun text.now from result }
    ensures bare { (len : ℕ) → IsTrivia (drop result text.now) len → ⊥ }
{
    let mut at = from;
    while let Some(len) = trivia_length(&text[at..]) {
        at += len;
    }
    at
}

// How long the byte of white space or the comment at the front is.
fn trivia_length(text: &[u8]) -> Option<usize>
    ensures found { IfSome result (λ len. IsTrivia text.now len × (0 < len)
        × (len ≤ length text.now)) }
    ensures none { IfNone result ((len : ℕ) → IsTrivia text.now len → ⊥) }
{
    match text.first() {
        Some(byte) if is_white(*byte) => Some(1),
        _ => comment_length(text),
    }
}

// How long the comment at the front is, where one begins and is closed.
fn comment_length(text: &[u8]) -> Option<usize>
    ensures found { IfSome result (λ len. IsComment text.now len) }
    ensures none { IfNone result ((len : ℕ) → IsComment text.now len → ⊥) }
{
    if text.starts_with(b"//") {
        Some(line_length(text))
    } else if text.starts_with(b"/*") {
        block_length(text)
    } else {
        None
    }
}

// How long the first line is, without its line feed.
fn line_length(text: &[u8]) -> usize
    ensures within { result ≤ length text.now }
    ensures line { (k : ℕ) → k < result → slice_index text.now k ≢ 10 }
    ensures ends { result < length text.now → slice_index text.now result ≡ 10 }
{
    for (at, byte) in text.iter().enumerate() {
        if *byte == b'\n' {
            return at;
        }
    }
    text.len()
}

// How long the block comment at the front is, where it is closed.
fn block_length(text: &[u8]) -> Option<usize>
    requires { Reads text.now 0 (codes "/*") }
    ensures found { IfSome result (λ len. IsBlockComment text.now len) }
    ensures none { IfNone result ((len : ℕ) → IsBlockComment text.now len → ⊥) }
{
    for close in 2..text.len() {
        if text[close..].starts_with(b"*/") {
            return Some(close + 2);
        }
    }
    None
}
