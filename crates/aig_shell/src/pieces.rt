//! Texts in pieces.
ghost use Rattle.std.specs.Prelude.{◌≡◌, ◌++◌, OnOk};
ghost use Rattle.std.specs.Fmt.{decimal};
ghost use Rattle.aig_shell.specs.Pieces.{piece_text, pieces_text};

use aig_base::Memory;
use aig_prompt::push_shown;
use itoa::Buffer;

/// A piece of a text.
#[derive(Clone, Copy, Drop)]
pub(crate) enum Piece<'a> {
    Text(&'a [u8]),
    Number(u64),
    /// A word, as a terminal may show it.
    Shown(&'a [u8]),
}

/// Adds a number.
pub(crate) fn push_number(text: &mut Vec<u8>, number: u64) -> Result<(), Memory>
    ensures { OnOk result (text.new.items ≡ text.old.items ++ decimal number) }
{
    let mut buffer = Buffer::new();
    text.extend_from_slice(buffer.format(number).as_bytes())?;
    Ok(())
}

/// Adds a piece.
fn push_piece(text: &mut Vec<u8>, piece: Piece<'_>) -> Result<(), Memory>
    ensures { OnOk result (text.new.items ≡ text.old.items ++ piece_text piece.entry) }
{
    match piece {
        Piece::Text(bytes) => {
            text.extend_from_slice(bytes)?;
            Ok(())
        }
        Piece::Number(number) => push_number(text, number),
        Piece::Shown(word) => push_shown(text, word),
    }
}

/// Adds pieces, one after the other. One call for a whole line leaves a function one exit in place of one a piece.
pub(crate) fn push_pieces(text: &mut Vec<u8>, pieces: &[Piece<'_>]) -> Result<(), Memory>
    ensures { OnOk result (text.new.items ≡ text.old.items ++ pieces_text pieces.now) }
{
    for piece in pieces {
        push_piece(text, *piece)?;
    }
    Ok(())
}
