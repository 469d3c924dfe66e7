ghost use Rattle.std.specs.Prelude.{◌≡◌, option_map};
ghost use Rattle.std.specs.List.{list_any};
ghost use Rattle.words.specs.Flag.{behind_pieces};
ghost use Rattle.pointed.specs.PrivateSpot.{IsEndOf};
ghost use Rattle.pointed.specs.Spot.{may_escape, is_whole, spot, spot_at};

use ascii::{after_blanks, first_piece};

/// A word of a line that a fault is about.
#[derive(Clone, Copy)]
pub struct Pointed<'a> {
    /// The number of its first byte in the line, counted from 1.
    pub column: usize,
    /// What stands before it in the line.
    pub before: &'a str,
    /// The word.
    pub word: &'a str,
}

/// Whether a byte may be the file's escape character.
pub(crate) fn may_escape(byte: u8) -> bool
    ensures { result ≡ may_escape byte }
{
    byte == b'\\' || byte == b'`'
}

/// Whether one of the bytes may be it.
fn has_escape(bytes: &[u8]) -> bool
    ensures { result ≡ list_any may_escape bytes.now }
{
    bytes.iter().any(|byte| may_escape(*byte))
}

/// Whether a piece can't go on in the next line.
pub(crate) fn is_whole(piece: &str) -> bool
    ensures { result ≡ is_whole piece.now }
{
    !has_escape(piece.as_bytes())
}

/// What follows so many pieces of a text.
pub(crate) fn after_pieces(text: &str, count: usize) -> &str
    ensures { result.now ≡ behind_pieces count text.now }
{
    let mut rest = text;
    let mut left = count;
    'pieces: while left > 0 {
        let (_, after) = first_piece(rest);
        rest = after;
        left -= 1;
    }
    after_blanks(rest)
}

/// The first piece of what is left of a line, with what stands before it; none if nothing is left, or the piece may go on in the next line.
#[tactic(auto, unfolding(crate::specs::Spot::spot_at))]
pub(crate) fn spot_at<'a>(line: &'a str, left: &'a str) -> Option<Pointed<'a>>
    requires { IsEndOf line.now left.now }
    ensures { option_map spot result ≡ spot_at line.now left.now }
{
    let (word, _) = first_piece(left);
    if word.is_empty() || !is_whole(word) {
        return None;
    }
    let begin = line.len() - left.len();
    Some(Pointed {
        column: begin + 1,
        before: &line[..begin],
        word,
    })
}
