ghost use Rattle.std.specs.Prelude.{◌≡◌, IsUtf8};
ghost use Rattle.lines.specs.Text.{without_byte_order_mark};

/// A text without its leading byte order mark.
pub fn without_byte_order_mark(text: &str) -> &str
    ensures { result.now ≡ without_byte_order_mark text.now }
{
    match text.strip_prefix('\u{feff}') {
        Some(rest) => rest,
        None => text,
    }
}

/// The text of bytes that are known to be UTF-8.
pub fn text_of(bytes: &[u8]) -> &str
    requires { IsUtf8 bytes.now }
    ensures { result.now ≡ bytes.now }
{
    match str::from_utf8(bytes) {
        Ok(text) => text,
        Err(_) => unreachable!(),
    }
}
