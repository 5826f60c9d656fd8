// Building a text.

ghost use Rattle.std.specs.Prelude.{◌≡◌, ◌++◌, OnOk, decimal};
ghost use Rattle.std.specs.Fmt.{signed_decimal};
ghost use Rattle.strc_emit_c.specs.Spelling.{indent, deeper};

use itoa::Buffer;
use strc_lex_names::memory::NoMemory;

/// How many blocks deep a line can begin.
pub const DEPTH_LIMIT: u32 = 12;

/// One block deeper, where lines can begin there.
pub fn deeper(depth: u32) -> u32
    ensures { result ≡ deeper depth }
{
    if depth < DEPTH_LIMIT {
        depth + 1
    } else {
        depth
    }
}

/// Adds bytes at the end.
pub fn push_bytes(text: &mut Vec<u8>, bytes: &[u8]) -> Result<(), NoMemory>
    ensures { OnOk result (text.new.items ≡ text.old.items ++ bytes.now) }
{
    text.extend_from_slice(bytes)?;
    Ok(())
}

/// Adds a number in decimal.
pub fn push_number(text: &mut Vec<u8>, number: u32) -> Result<(), NoMemory>
    ensures { OnOk result (text.new.items ≡ text.old.items ++ decimal number) }
{
    let mut buffer = Buffer::new();
    text.extend_from_slice(buffer.format(number).as_bytes())?;
    Ok(())
}

/// Adds a number with a `-` where it is negative.
pub fn push_integer(text: &mut Vec<u8>, number: i32) -> Result<(), NoMemory>
    ensures { OnOk result (text.new.items ≡ text.old.items ++ signed_decimal number) }
{
    let mut buffer = Buffer::new();
    text.extend_from_slice(buffer.format(number).as_bytes())?;
    Ok(())
}

/// Adds the beginning of a line that is so many blocks deep.
pub fn push_indent(text: &mut Vec<u8>, depth: u32) -> Result<(), NoMemory>
    ensures { OnOk result (text.new.items ≡ text.old.items ++ indent depth) }
{
    let mut left = depth;
    while left > 0 {
        push_bytes(text, b"    ")?;
        left -= 1;
    }
    Ok(())
}
