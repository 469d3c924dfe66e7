ghost use Rattle.std.specs.Prelude.{◌≡◌, ◌<◌, [], ◌∷◌, length, MatchOption};
ghost use Rattle.std.specs.List.{slice_split, position_or_len};
ghost use Rattle.executor.specs.Script.{is_line_feed};

/// The first line of a script and what follows its line feed, or nothing where the script is one line.
pub(crate) fn split_line(text: &str) -> Option<(&str, &str)>
    ensures { MatchOption result (slice_split is_line_feed text.now ≡ text.now ∷ [])
        (λ parts. (slice_split is_line_feed text.now ≡ parts.0.now ∷ slice_split is_line_feed parts.1.now) × (length parts.1.now < length text.now)) }
{
    let length = line_len(text.as_bytes());
    if length == text.len() {
        return None;
    }
    Some((&text[..length], &text[length + 1..]))
}

/// How long the first line of a text is.
fn line_len(text: &[u8]) -> usize
    ensures { result ≡ position_or_len is_line_feed text.now }
{
    for (index, byte) in text.iter().enumerate() {
        if *byte == b'\n' {
            return index;
        }
    }
    text.len()
}
