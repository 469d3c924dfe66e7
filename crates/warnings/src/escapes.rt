// Variables and escape characters in texts that BuildKit reads otherwise.
ghost use Rattle.std.specs.Prelude.{◌≡◌, ◌==◌, ◌&&◌, not};
ghost use Rattle.expand.specs.Scan.{is_freed};
ghost use Rattle.warnings.specs.Escapes.{is_special, begins_variable, has_variable, varies_after, has_idle_escape, is_idle_after};

use ascii::is_in_name;
use lines::Escape;

/// Whether a character is a special parameter of BuildKit.
fn is_special(byte: u8) -> bool
    ensures { result ≡ is_special byte }
{
    byte == b'@'
        || byte == b'*'
        || byte == b'#'
        || byte == b'?'
        || byte == b'-'
        || byte == b'$'
        || byte == b'!'
}

/// Whether a variable goes on with this character after its `$`.
fn begins_variable(byte: u8) -> bool
    ensures { result ≡ begins_variable byte }
{
    is_in_name(byte) || byte == b'{' || is_special(byte)
}

/// Whether a byte is this one, and no escape character acts on it.
fn is_free(acts: bool, byte: u8, wanted: u8) -> bool
    ensures { result ≡ (not acts && (byte == wanted)) }
{
    !acts && byte == wanted
}

/// Whether a text has a variable on whose `$` no escape character acts.
pub(crate) fn has_variable(escape: Escape, text: &[u8]) -> bool
    ensures { result ≡ has_variable escape text.now }
{
    let mut acts = false;
    let mut opens = false;
    for byte in text {
        if opens && begins_variable(*byte) {
            return true;
        }
        opens = is_free(acts, *byte, b'$');
        acts = is_free(acts, *byte, escape.byte());
    }
    false
}

/// Whether the escape character acts before this character in the body of a heredoc.
fn is_freed(escape: Escape, byte: u8) -> bool
    ensures { result ≡ is_freed escape byte }
{
    byte == b'$' || byte == escape.byte()
}

/// Whether the body of a heredoc has an escape character before what it doesn't act on.
pub(crate) fn has_idle_escape(escape: Escape, body: &[u8]) -> bool
    ensures { result ≡ has_idle_escape escape body.now }
{
    let mut acts = false;
    for byte in body {
        if acts && !is_freed(escape, *byte) {
            return true;
        }
        acts = is_free(acts, *byte, escape.byte());
    }
    acts
}
