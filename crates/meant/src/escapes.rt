// What may be the file's escape character, by which a word or a line goes on in the next line.
ghost use Rattle.std.specs.Prelude.{◌≡◌, ◌==◌};
ghost use Rattle.std.specs.List.{before_first, list_any};
ghost use Rattle.meant.specs.Escapes.{may_escape, is_whole, before_escape, ends_in_escape, may_go_on};

use ascii::before_blanks;

/// Whether a byte may be the file's escape character.
pub(crate) fn may_escape(byte: u8) -> bool
    ensures { result ≡ may_escape byte }
{
    byte == b'\\' || byte == b'`'
}

/// Whether one of the bytes may be it.
fn has_escape(bytes: &[u8]) -> bool
    ensures { result ≡ list_any may_escape bytes.now }
{
    bytes.iter().any(|byte| may_escape(*byte))
}

/// Whether a word stands on its line whole.
pub(crate) fn is_whole(word: &str) -> bool
    ensures { result ≡ is_whole word.now }
{
    !has_escape(word.as_bytes())
}

/// A word up to a backslash.
fn before_backslash(word: &str) -> &str
    ensures { result.now ≡ before_first (λ c. c == 92) word.now }
{
    let (before, _) = word.split_once('\\').unwrap_or((word, ""));
    before
}

/// A word up to a backtick.
fn before_backtick(word: &str) -> &str
    ensures { result.now ≡ before_first (λ c. c == 96) word.now }
{
    let (before, _) = word.split_once('`').unwrap_or((word, ""));
    before
}

/// A word up to what may be the file's escape character.
pub(crate) fn before_escape(word: &str) -> &str
    ensures { result.now ≡ before_escape word.now }
{
    before_backtick(before_backslash(word))
}

/// Whether the last of the bytes may be it.
fn ends_in_escape(bytes: &[u8]) -> bool
    ensures { result ≡ ends_in_escape bytes.now }
{
    if bytes.is_empty() {
        return false;
    }
    may_escape(bytes[bytes.len() - 1])
}

/// Whether a line may go on in the next one.
pub(crate) fn may_go_on(line: &str) -> bool
    ensures { result ≡ may_go_on line.now }
{
    ends_in_escape(before_blanks(line).as_bytes())
}
