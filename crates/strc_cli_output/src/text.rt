// Building the text of the output.

ghost use Rattle.std.specs.Prelude.{◌≡◌, ◌++◌, OnOk, decimal};
ghost use Rattle.std.specs.Fmt.{signed_decimal};
ghost use Rattle.strc_cli_output.specs.Pieces.{piece_text, pieces_text};

use itoa::Buffer;
use std::alloc::AllocError;

/// A piece of a line.
#[derive(Clone, Copy)]
pub enum Piece<'a> {
    /// Bytes as they are.
    Bytes(&'a [u8]),
    /// A number in decimal.
    Number(u64),
}

/// Adds pieces one after another.
#[tactic(auto, using(crate::proofs::Pieces::first_apart))]
pub fn push_pieces(text: &mut Vec<u8>, pieces: &[Piece<'_>]) -> Result<(), AllocError>
    ensures { OnOk result (text.new.items ≡ text.old.items ++ pieces_text pieces.now) }
{
    for piece in pieces {
        push_piece(text, *piece)?;
    }
    Ok(())
}

// Adds a piece.
fn push_piece(text: &mut Vec<u8>, piece: Piece<'_>) -> Result<(), AllocError>
    ensures { OnOk result (text.new.items ≡ text.old.items ++ piece_text piece.entry) }
{
    match piece {
        Piece::Bytes(bytes) => push_bytes(text, bytes),
        Piece::Number(number) => push_number(text, number),
    }
}

/// Adds bytes at the end.
pub fn push_bytes(text: &mut Vec<u8>, bytes: &[u8]) -> Result<(), AllocError>
    ensures { OnOk result (text.new.items ≡ text.old.items ++ bytes.now) }
{
    text.extend_from_slice(bytes)?;
    Ok(())
}

/// Adds a number in decimal.
pub(crate) fn push_number(text: &mut Vec<u8>, number: u64) -> Result<(), AllocError>
    ensures { OnOk result (text.new.items ≡ text.old.items ++ decimal number) }
{
    let mut buffer = Buffer::new();
    text.extend_from_slice(buffer.format(number).as_bytes())?;
    Ok(())
}

/// Adds a number with a `-` where it is negative.
pub(crate) fn push_integer(text: &mut Vec<u8>, number: i32) -> Result<(), AllocError>
    ensures { OnOk result (text.new.items ≡ text.old.items ++ signed_decimal number) }
{
    let mut buffer = Buffer::new();
    text.extend_from_slice(buffer.format(number).as_bytes())?;
    Ok(())
}
