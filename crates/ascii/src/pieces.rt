ghost use Rattle.std.specs.Prelude.{◌≡◌, map, IfOk};
ghost use Rattle.ascii.specs.Pieces.{until_blank, from_blank, first_piece, behind_piece, pieces};

use crate::{after_blanks, is_blank};
use plain::Memory;
use std::alloc::Global;

/// A text's first piece, up to its first blank, and what stands behind it from the next character on that isn't blank.
///
/// Blanks before the piece are dropped; quotes and escape characters aren't known. Of a text of blanks alone both are empty.
pub fn first_piece(text: &str) -> (&str, &str)
    ensures piece { result.0.now ≡ first_piece text.now }
    ensures behind { result.1.now ≡ behind_piece text.now }
{
    let text = after_blanks(text);
    let (piece, behind) = cut_at_blank(text);
    (piece, after_blanks(behind))
}

/// What stands before a text's first blank, and the text from that blank on.
fn cut_at_blank(text: &str) -> (&str, &str)
    ensures before { result.0.now ≡ until_blank text.now }
    ensures behind { result.1.now ≡ from_blank text.now }
{
    for (index, byte) in text.as_bytes().iter().enumerate() {
        if is_blank(*byte) {
            return (&text[..index], &text[index..]);
        }
    }
    (text, "")
}

/// The pieces of a text, in order: its longest runs of characters that aren't blank.
pub fn split_at_blanks(alloc: Global, text: &str) -> Result<Vec<&str>, Memory>
    ensures { IfOk result (λ found. map (λ piece. piece.now) found.items ≡ pieces text.now) }
{
    let mut found = Vec::new(alloc);
    let mut rest = after_blanks(text);
    while !rest.is_empty() {
        let (piece, behind) = first_piece(rest);
        found.push(piece)?;
        rest = behind;
    }
    Ok(found)
}
