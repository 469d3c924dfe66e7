ghost use Rattle.std.specs.Prelude.{◌≡◌, option_map};
ghost use Rattle.lines.specs.Blanks.{after_tabs, starts_with, ends_with, continued_part, is_blank_line, is_comment, is_skipped};
ghost use Rattle.lines.specs.Escape.{byte_of};

use crate::Escape;
use ascii::{after_blanks, before_blanks};

/// A text without its leading tabs.
pub fn after_tabs(text: &str) -> &str
    ensures { result.now ≡ after_tabs text.now }
{
    let bytes = text.as_bytes();
    let mut at = 0;
    while at < bytes.len() && bytes[at] == b'\t' {
        at += 1;
    }
    &text[at..]
}

/// Whether a text begins with a byte.
pub fn starts_with(text: &[u8], byte: u8) -> bool
    ensures { result ≡ starts_with byte text.now }
{
    match text {
        [] => false,
        [first, ..] => *first == byte,
    }
}

/// Whether a text ends with a byte.
pub fn ends_with(text: &[u8], byte: u8) -> bool
    ensures { result ≡ ends_with byte text.now }
{
    if text.is_empty() {
        return false;
    }
    text[text.len() - 1] == byte
}

/// What a line adds to its logical line where it continues, and nothing where it doesn't.
pub fn continued_part(escape: Escape, line: &str) -> Option<&str>
    ensures { option_map (λ part. part.now) result ≡ continued_part (byte_of escape) line.now }
{
    let kept = before_blanks(line);
    if !ends_with(kept.as_bytes(), escape.byte()) {
        return None;
    }
    let part = &kept[..kept.len() - 1];
    if ends_with(part.as_bytes(), escape.byte()) {
        return None;
    }
    Some(part)
}

/// Whether a line holds nothing but blanks.
pub fn is_blank_line(line: &str) -> bool
    ensures { result ≡ is_blank_line line.now }
{
    after_blanks(line).is_empty()
}

/// Whether a line's first character that isn't blank is `#`.
pub fn is_comment(line: &str) -> bool
    ensures { result ≡ is_comment line.now }
{
    starts_with(after_blanks(line).as_bytes(), b'#')
}

/// Whether a line is a comment or blank.
pub fn is_skipped(line: &str) -> bool
    ensures { result ≡ is_skipped line.now }
{
    is_blank_line(line) || is_comment(line)
}
