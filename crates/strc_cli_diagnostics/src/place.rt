// Places in a text, as editors count them.

ghost use Rattle.std.specs.Prelude.{◌≡◌, ◌≤◌, take, length};
ghost use Rattle.strc_cli_diagnostics.specs.Places as spec;
ghost use Rattle.strc_cli_diagnostics.specs.Places.{IsPlace};

use memchr::{memchr, memchr_iter, memrchr};

/// A place in a text: both numbers count from 1, columns in bytes.
#[derive(Clone, Copy)]
pub struct Place {
    pub line: usize,
    pub column: usize,
}

/// The place of a byte of a text; that of its end, where the text has no such byte.
pub fn place_of(text: &[u8], at: usize) -> Place
    ensures { IsPlace (take at text.now) result }
{
    let before = &text[..at.min(text.len())];
    let column = match memrchr(b'\n', before) {
        Some(last) => before.len() - last,
        None => before.len() + 1,
    };
    Place {
        line: memchr_iter(b'\n', before).count() + 1,
        column,
    }
}

/// The bytes before a place on its line.
pub fn line_before(text: &[u8], at: usize) -> &[u8]
    ensures { result.now ≡ spec.line_before text.now at }
{
    let before = &text[..at.min(text.len())];
    match memrchr(b'\n', before) {
        Some(last) => &before[last + 1..],
        None => before,
    }
}

/// The bytes from a place to the end of its line.
pub fn line_from(text: &[u8], at: usize) -> &[u8]
    ensures { result.now ≡ spec.line_from text.now at }
{
    let rest = &text[at.min(text.len())..];
    match memchr(b'\n', rest) {
        Some(end) => &rest[..end],
        None => rest,
    }
}
