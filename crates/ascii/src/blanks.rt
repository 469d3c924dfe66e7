ghost use Rattle.std.specs.Prelude.{◌≡◌};
ghost use Rattle.ascii.specs.Blanks.{is_blank, after_blanks, before_blanks, trimmed};

/// Whether a byte is a blank: a space or a tab, and no other (own).
pub fn is_blank(byte: u8) -> bool
    ensures { result ≡ is_blank byte }
{
    byte == b' ' || byte == b'\t'
}

/// A text without its leading blanks. Of a text of blanks alone it is empty.
pub fn after_blanks(text: &str) -> &str
    ensures { result.now ≡ after_blanks text.now }
{
    let bytes = text.as_bytes();
    let mut at = 0;
    while at < bytes.len() && is_blank(bytes[at]) {
        at += 1;
    }
    &text[at..]
}

/// A text without its trailing blanks.
pub fn before_blanks(text: &str) -> &str
    ensures { result.now ≡ before_blanks text.now }
{
    let bytes = text.as_bytes();
    let mut end = bytes.len();
    while end > 0 && is_blank(bytes[end - 1]) {
        end -= 1;
    }
    &text[..end]
}

/// A text without its leading and trailing blanks.
pub fn trimmed(text: &str) -> &str
    ensures { result.now ≡ trimmed text.now }
{
    before_blanks(after_blanks(text))
}
