// The sentences that need nothing but the refusal.

ghost use Rattle.std.specs.Prelude.{◌≡◌, slice_get};
ghost use Rattle.strc_cli_messages.specs.RefusalWords as words;

use strc_cli_source::source::Source;
use strc_run_refusal::refusal::Refusal;
use strc_work_meaning::fault::Cause;

/// What is said of a refusal; of one that names a node or a channel, what follows their names.
pub(crate) fn plain_sentence(source: Source<'_>, refusal: &Refusal) -> &'static [u8]
    ensures { words.ArePlainWords source.entry.text.now refusal.now result.now }
{
    match refusal {
        Refusal::Lex { at } => lexical_sentence(source.text, *at),
        Refusal::ConstFault { cause } => start_fault_sentence(*cause),
        Refusal::TypeMismatch { .. } => {
            b"a type, a kind or a part isn't the one that must be there"
        }
        Refusal::BadArguments { .. } => {
            b"another number of arguments is given here than there are parameters"
        }
        Refusal::BadWeights { .. } => b"the weights in this statement don't fit its children",
        Refusal::RateUnknown { .. } => b" pushes or pops a number of items that can't be counted",
        Refusal::PeekOutside { .. } => b" looks at an item that is never in its window",
        Refusal::Inconsistent { .. } => b" can't be balanced",
        Refusal::BufferLimit { .. } => b" would hold more than 16,777,216 items",
        _ => program_sentence(refusal),
    }
}

/// Why no token begins at a byte.
fn lexical_sentence(text: &[u8], at: usize) -> &'static [u8]
    ensures { words.AreLexicalWords (slice_get text.now at) result.now }
{
    byte_sentence(text, at, text.get(at).copied())
}

/// The same of this byte.
fn byte_sentence(text: &[u8], at: usize, byte: Option<u8>) -> &'static [u8]
    ensures { words.AreLexicalWords byte result.now }
{
    match byte {
        Some(b'"') => b"this string isn't closed on its line, or has a backslash in it",
        Some(b'/') => b"this comment is never closed",
        Some(b'.') if is_before_letter(text, at) => b"nothing has parts that are named by a `.`",
        Some(b'.') => b"numbers have no decimal point: items are integers",
        Some(b'0'..=b'9') => b"this isn't a number from 0 to 2147483648 without needless zeros",
        Some(b'#') if begins_line(text, at) =>
            b"there is no preprocessor, and no token begins with `#`",
        Some(b'\'') => b"a character is written as its number",
        Some(0xef) if is_order_mark(text, at) => {
            b"a byte order mark is no part of a program: keep the text as UTF-8 without one"
        }
        Some(128..=255) => b"names are made of the letters a to z, A to Z, digits and `_`",
        _ => b"no token begins like this",
    }
}

/// Whether these are the three bytes of a byte order mark.
fn is_order_mark(text: &[u8], at: usize) -> bool {
    at == 0 && text.get(1) == Some(&0xbb) && text.get(2) == Some(&0xbf)
}

/// Whether a byte is the first one of its line.
fn begins_line(text: &[u8], at: usize) -> bool {
    match at.checked_sub(1) {
        Some(last) => text.get(last) == Some(&b'\n'),
        None => true,
    }
}

/// Whether a letter is behind a byte.
fn is_before_letter(text: &[u8], at: usize) -> bool {
    match text.get(at.saturating_add(1)) {
        Some(b'a'..=b'z' | b'A'..=b'Z') => true,
        _ => false,
    }
}

/// Which fault the text comes to before it runs.
pub(crate) fn start_fault_sentence(cause: Cause) -> &'static [u8]
    ensures { result.now ≡ words.start_words cause }
{
    match cause {
        Cause::DivZero => b"a number is divided by zero while the streams are put together",
        Cause::Index => b"an index or a length is out of bounds while the streams are put together",
        Cause::PeekRange => b"an item is looked at while the streams are put together",
        Cause::Turns => b"loops turn more than 1,000,000 times while the streams are put together",
        Cause::Calls => b"more than 64 calls run at once while the streams are put together",
    }
}

/// What is wrong with the whole program.
fn program_sentence(refusal: &Refusal) -> &'static [u8]
    ensures { result.now ≡ words.program_words refusal.now }
{
    match refusal {
        Refusal::TextTooLong => b"the text is longer than 1,048,576 bytes",
        Refusal::Nesting => b"a statement or an expression is nested deeper than 256",
        Refusal::ManyMains => b"several streams are declared void->void without parameters",
        Refusal::DepthLimit => b"streams are added in one another more than 64 deep",
        Refusal::NodeLimit => b"the program has more than 4,096 nodes",
        Refusal::TwoInputs => b"more than one FileReader takes the input",
        Refusal::TapeTwice { .. } => b"two FileWriters write to the same file",
        Refusal::Disconnected => b"the nodes aren't all connected by channels",
        Refusal::CountsTooLarge => b"a node would fire more than 1,000,000 times in a round",
        Refusal::StartupUnbounded => {
            b"no firings before the first round give each node what it looks at"
        }
        Refusal::Deadlock { in_startup: true } => {
            b"the firings before the first round get stuck: each node waits for items"
        }
        Refusal::Deadlock { in_startup: false } => {
            b"the firings of a round get stuck: each node waits for items"
        }
        _ => b"out of memory",
    }
}
