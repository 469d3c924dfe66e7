// The text of a path, read back: for lists of paths that are written clean.
ghost use Rattle.std.specs.Prelude.{◌≡◌, ◌≢◌, ◌<◌, ◌≤◌, ◌&&◌, List, ℕ, length, nat_lt, nat_le, IfOk, SomeIff, MatchOption};
ghost use Rattle.plain.specs.Limits.{most_components, most_component_bytes};
ghost use Rattle.paths.specs.Path.{IsClean, is_normal, text_of};
ghost use Rattle.paths.specs.Reading.{pieces, is_absolute};

use crate::Path;
use crate::pieces::cut_at_slash;
use crate::reading::{is_idle, is_up};
use plain::limits::{MOST_COMPONENT_BYTES, MOST_COMPONENTS};
use plain::{Memory, Text};
use std::alloc::Global;

impl Path {
    /// The path whose text this is; `None` where it is no path's: it isn't absolute, clean and within the limits. It answers the path that
    /// `read` does, and only of a text that `text` gives back.
    pub fn from_text(alloc: Global, text: &str) -> Result<Option<Path>, Memory>
        ensures { IfOk result (λ path. MatchOption path
            ((p : List (List ℕ)) → IsClean p → text_of p ≢ text.now) (λ p. text_of p ≡ text.now)) }
    {
        if !is_absolute(text.as_bytes()) {
            return Ok(None);
        }
        let names = &text[1..];
        if names.is_empty() {
            return Ok(Some(Path::root(alloc)));
        }
        from_names(alloc, names)
    }
}

/// The path of these names, which have slashes between them; `None` where it is none.
fn from_names(alloc: Global, names: &str) -> Result<Option<Path>, Memory>
    ensures { IfOk result (λ path. SomeIff path (IsClean (pieces names.now)) (pieces names.now)) }
{
    let count = count_slashes(names.as_bytes()).min(MOST_COMPONENTS - 1) + 1;
    let mut parts = Vec::with_capacity(alloc, count)?;
    let mut rest = names;
    while let Some((piece, behind)) = cut_at_slash(rest) {
        if !may_follow(parts.len(), piece) {
            return Ok(None);
        }
        parts.push(Text::from_str(alloc, piece)?)?;
        rest = behind;
    }
    if !may_follow(parts.len(), rest) {
        return Ok(None);
    }
    parts.push(Text::from_str(alloc, rest)?)?;
    Ok(Some(Path::from_parts(parts)))
}

/// Whether a text begins with a slash.
fn is_absolute(text: &[u8]) -> bool
    ensures { result ≡ is_absolute text.now }
{
    matches!(text, [b'/', ..])
}

/// Whether a piece may be the next component of a path of so many.
fn may_follow(count: usize, piece: &str) -> bool
    ensures { result ≡ (nat_lt count most_components && (nat_le (length piece.now) most_component_bytes && is_normal piece.now)) }
{
    count < MOST_COMPONENTS
        && piece.len() <= MOST_COMPONENT_BYTES
        && !is_idle(piece)
        && !is_up(piece)
}

/// How many slashes there are.
fn count_slashes(text: &[u8]) -> usize
    ensures { result ≤ length text.now }
{
    let mut count = 0;
    for byte in text {
        count += (*byte == b'/') as usize;
    }
    count
}
