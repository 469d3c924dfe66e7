ghost use Rattle.std.specs.Prelude.{◌≡◌, ◌==◌, ◌<◌, ◌≤◌, [], ◌∷◌, length, MatchOption};
ghost use Rattle.std.specs.List.{position_or_len};
ghost use Rattle.plain.specs.Limits.{most_components};
ghost use Rattle.paths.specs.Reading.{pieces};

use plain::limits::MOST_COMPONENTS;

/// The first piece of a text and what follows its slash, or nothing where the text is one piece. Going over the bytes is cheaper
/// than `split`, whose search for a character is made for long texts.
pub(crate) fn cut_at_slash(text: &str) -> Option<(&str, &str)>
    ensures { MatchOption result (pieces text.now ≡ text.now ∷ [])
        (λ parts. (pieces text.now ≡ parts.0.now ∷ pieces parts.1.now) × (length parts.1.now < length text.now)) }
{
    let length = piece_len(text.as_bytes());
    if length == text.len() {
        return None;
    }
    Some((&text[..length], &text[length + 1..]))
}

/// How long the first piece of a text is.
fn piece_len(text: &[u8]) -> usize
    ensures { result ≡ position_or_len (λ b. b == 47) text.now }
{
    for (index, byte) in text.iter().enumerate() {
        if *byte == b'/' {
            return index;
        }
    }
    text.len()
}

/// How many pieces of a text aren't empty: so many components it adds to a path, unless `.` or `..` is among them. It counts no further
/// than a path's components may be many.
pub(crate) fn count_filled(text: &[u8]) -> usize
    ensures { result ≤ most_components }
{
    let mut count = 0;
    let mut is_behind_slash = true;
    for byte in text {
        if *byte == b'/' {
            is_behind_slash = true;
        } else if is_behind_slash {
            if count == MOST_COMPONENTS {
                return count;
            }
            count += 1;
            is_behind_slash = false;
        }
    }
    count
}
