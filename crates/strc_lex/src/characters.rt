// Which bytes are white space, digits, and parts of names and strings.

ghost use Rattle.std.specs.Prelude.{◌≡◌};
ghost use Rattle.strc_lex.specs.Characters as spec;

/// Tab, line feed, form feed, carriage return and space.
pub fn is_white(byte: u8) -> bool
    ensures { result ≡ spec.is_white byte }
{
    byte == 9 || byte == 10 || byte == 12 || byte == 13 || byte == 32
}

/// `0` to `9`.
pub fn is_digit(byte: u8) -> bool
    ensures { result ≡ spec.is_digit byte }
{
    48 <= byte && byte <= 57
}

/// A letter or `_`.
pub fn is_letter(byte: u8) -> bool
    ensures { result ≡ spec.is_letter byte }
{
    97 <= byte && byte <= 122 || 65 <= byte && byte <= 90 || byte == 95
}

/// What a name goes on with: a letter, `_` or a digit.
pub fn is_name_byte(byte: u8) -> bool
    ensures { result ≡ spec.is_name_byte byte }
{
    is_letter(byte) || is_digit(byte)
}

/// `"`, which opens and closes a string.
pub fn is_quote(byte: u8) -> bool
    ensures { result ≡ spec.is_quote byte }
{
    byte == 34
}

/// What a string has between its quotes: all but `"`, backslash and line feed.
pub fn is_string_byte(byte: u8) -> bool
    ensures { result ≡ spec.is_string_byte byte }
{
    !(byte == 34 || byte == 92 || byte == 10)
}
