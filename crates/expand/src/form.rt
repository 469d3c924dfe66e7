ghost use Rattle.std.specs.Prelude.{◌≡◌};
ghost use Rattle.expand.specs.PrivateForm.{are_ordinary};
ghost use Rattle.expand.specs.Word.{is_ordinary};

use crate::kind::Kind;
use crate::token::Token;
use lines::Escape;
use plain::{Items, Text};

/// How a word is kept.
#[derive(Debug, Drop)]
pub enum Form {
    /// A text that stands for itself, as most texts of a Dockerfile do: neither list nor token is made of it. Copies of a long one
    /// share its bytes.
    Plain(Text),
    /// Tokens, where something may be syntax.
    Tokens(Items<Token>),
}

/// Whether a text's bytes are ordinary, and so stand for themselves.
pub fn are_ordinary(kind: Kind, escape: Escape, bytes: &[u8]) -> bool
    ensures { result ≡ are_ordinary kind escape bytes.now }
{
    for byte in bytes {
        if !is_ordinary(kind, escape, *byte) {
            return false;
        }
    }
    true
}

/// Whether a byte stands for itself wherever it stands.
fn is_ordinary(kind: Kind, escape: Escape, byte: u8) -> bool
    ensures { result ≡ is_ordinary kind escape byte }
{
    match byte {
        b'$' => false,
        b'\'' | b'"' => kind == Kind::Unquoted,
        _ => byte != escape.byte(),
    }
}
