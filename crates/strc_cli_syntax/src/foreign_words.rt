// Words of C, of Java and of other forms of StreamIt that mean nothing here.

ghost use Rattle.std.specs.Prelude.{OnOk};
ghost use Rattle.strc_cli_syntax.specs.Words.{GoesOnWithHint};

use crate::hint_words::push_words;
use strc_cli_diagnostics::message::Message;
use strc_lex_names::memory::NoMemory;

/// A hint on a word, where it is one of C's, of Java's or of StreamIt's own. Whether it is.
pub fn push_foreign_hint(message: &mut Message, word: &[u8]) -> Result<bool, NoMemory>
    ensures { OnOk result (GoesOnWithHint message.old message.new) }
{
    let hint = foreign_hint(word);
    push_words(message, hint)?;
    Ok(!hint.is_empty())
}

/// Whether another text is asked for at a byte, as C does.
pub fn is_include(text: &[u8], at: usize) -> bool {
    match text.get(at..) {
        Some(rest) => rest.starts_with(b"#include"),
        None => false,
    }
}

/// What stands here for a word that is one of C's, of Java's or of StreamIt's own; nothing for
/// another word.
pub(crate) fn foreign_hint(word: &[u8]) -> &'static [u8] {
    match FOREIGN.iter().find(|it| it.0.as_bytes() == word) {
        Some(found) => found.1.as_bytes(),
        None => b"",
    }
}

const CONSTANT: &str = "leave it out: a parameter keeps its value, and so does a field that only \
    init sets, as a table: `int[31] t; init { t[0] = 5; t[1] = 7; }`";

const NUMBERED: &str = "parameters and fields keep numbers that have names";

const NUMBERS: &str = "numbers are `int`, of 32 bits with a sign";

const FRACTIONS: &str = "items are `int`: a fraction can be scaled, as 0.5 to 16384 of 32768";

const TEXTS: &str = "there are no strings and no characters: a character is its number";

const CHOICES: &str = "`if` and `else if` stand for `switch`";

const DECLARED: &str =
    "a stream is declared as in `int->int filter Name { work push 1 pop 1 { .. } }`";

const ONE_TEXT: &str = "a program is one text: put the other one before it, as `cat` does";

const PRINTING: &str = "print and println write one number each";

const COMPUTED: &str = "there is no library of functions: write a helper function in the filter";

pub(crate) const MESSAGES: &str =
    "streams send no messages: what they tell each other goes by channels";
/// Where items wait.
pub const DELAYS: &str = "items that wait in a feedbackloop are put there by `enqueue`";

pub(crate) const STRUCTURES: &str = "items are numbers: push the parts one after another";

/// Each word, with what stands for it.
const FOREIGN: [(&str, &str); 48] = [
    ("const", CONSTANT),
    ("final", CONSTANT),
    (
        "static",
        "leave it out: a field of a filter keeps its value from firing to firing",
    ),
    ("unsigned", NUMBERS),
    ("signed", NUMBERS),
    ("long", NUMBERS),
    ("short", NUMBERS),
    ("int32_t", NUMBERS),
    ("uint32_t", NUMBERS),
    ("double", FRACTIONS),
    ("char", TEXTS),
    ("string", TEXTS),
    ("String", TEXTS),
    ("bool", "a truth value is a `boolean`"),
    ("switch", CHOICES),
    ("case", CHOICES),
    ("goto", "`if` and `while` stand for `goto`"),
    ("new", "a stream is added by its name, without `new`"),
    ("class", DECLARED),
    ("extends", DECLARED),
    ("public", DECLARED),
    (
        "function",
        "a helper function stands in its filter, as in `int twice(int x) { return 2 * x; }`",
    ),
    ("include", ONE_TEXT),
    ("import", ONE_TEXT),
    ("package", ONE_TEXT),
    ("typedef", STRUCTURES),
    ("union", STRUCTURES),
    ("enum", NUMBERED),
    ("native", COMPUTED),
    ("extern", COMPUTED),
    (
        "sizeof",
        "the length of an array is what it was declared with",
    ),
    ("handler", MESSAGES),
    ("message", MESSAGES),
    (
        "phase",
        "a filter has one work, and before it at most one prework",
    ),
    ("printf", PRINTING),
    ("printLn", PRINTING),
    ("setDelay", DELAYS),
    ("initPath", DELAYS),
    ("abs", COMPUTED),
    ("min", COMPUTED),
    ("max", COMPUTED),
    ("pow", COMPUTED),
    ("sqrt", COMPUTED),
    ("sin", COMPUTED),
    ("cos", COMPUTED),
    ("exp", COMPUTED),
    ("log", COMPUTED),
    ("round", COMPUTED),
];
