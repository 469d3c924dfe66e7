ghost use Rattle.std.specs.Prelude.{◌≡◌};
ghost use Rattle.ascii.specs.Names.{is_digit, is_letter, begins_name, is_in_name, are_in_name, is_name};

/// Whether a byte is a decimal digit.
pub fn is_digit(byte: u8) -> bool
    ensures { result ≡ is_digit byte }
{
    byte.is_ascii_digit()
}

/// Whether a byte is a letter of ASCII, of either case.
pub fn is_letter(byte: u8) -> bool
    ensures { result ≡ is_letter byte }
{
    matches!(byte, b'A'..=b'Z' | b'a'..=b'z')
}

/// Whether a name may begin with this byte: a letter or `_`.
pub fn begins_name(byte: u8) -> bool
    ensures { result ≡ begins_name byte }
{
    is_letter(byte) || byte == b'_'
}

/// Whether a byte may stand in a name: a letter, a digit or `_`.
pub fn is_in_name(byte: u8) -> bool
    ensures { result ≡ is_in_name byte }
{
    begins_name(byte) || is_digit(byte)
}

/// Whether each byte may stand in a name.
fn are_in_name(bytes: &[u8]) -> bool
    ensures { result ≡ are_in_name bytes.now }
{
    for byte in bytes {
        if !is_in_name(*byte) {
            return false;
        }
    }
    true
}

/// Whether bytes are a name: a letter or `_`, and behind it letters, digits and `_` alone. It is the form of a variable's name and of a
/// heredoc's (POSIX, names; that a heredoc's has it too: own).
pub fn is_name(bytes: &[u8]) -> bool
    ensures { result ≡ is_name bytes.now }
{
    match bytes {
        [] => false,
        [first, rest @ ..] => begins_name(*first) && are_in_name(rest),
    }
}
