// Texts in quoted strings.
ghost use Rattle.std.specs.Prelude.{◌≡◌, ◌<◌, ◌++◌, false, OnOk};
ghost use Rattle.std.specs.Fmt.{digit_glyph};
ghost use Rattle.std.specs.String.{string_bytes};
ghost use Rattle.dot.specs.Quoted.{numbered, shown_byte, shown, in_rows, row_width, rows};

use std::alloc::AllocError;

/// After so many characters of a row the next blank ends it.
const ROW_WIDTH: u8 = 60;

/// A hexadecimal digit.
fn hex_digit(digit: u8) -> char
    requires { digit < 16 }
    ensures { result ≡ digit_glyph false digit }
{
    if digit < 10 {
        char::from(b'0' + digit)
    } else {
        char::from(b'a' + (digit - 10))
    }
}

/// Adds the number of a byte.
fn push_numbered(out: &mut String, byte: u8) -> Result<(), AllocError>
    ensures { OnOk result (string_bytes out.new ≡ string_bytes out.old ++ numbered byte) }
{
    out.push_str("\\\\x")?;
    out.push(hex_digit(byte / 16))?;
    out.push(hex_digit(byte % 16))
}

/// Adds a byte of a quoted string.
#[tactic(auto, unfolding(crate::specs::Quoted::shown_byte))]
fn push_byte(out: &mut String, byte: u8) -> Result<(), AllocError>
    ensures { OnOk result (string_bytes out.new ≡ string_bytes out.old ++ shown_byte byte) }
{
    if byte == b'"' {
        return out.push_str("\\\"");
    }
    if byte == b'\\' {
        return out.push_str("\\\\");
    }
    if byte == b'&' {
        return out.push_str("&amp;");
    }
    if 32 <= byte && byte <= 126 {
        return out.push(char::from(byte));
    }
    push_numbered(out, byte)
}

/// Adds a text of a quoted string.
fn push_shown(out: &mut String, text: &str) -> Result<(), AllocError>
    ensures { OnOk result (string_bytes out.new ≡ string_bytes out.old ++ shown text.now) }
{
    for byte in text.as_bytes() {
        push_byte(out, *byte)?;
    }
    Ok(())
}

/// Adds a text, one of a quoted string, and a text.
pub(crate) fn push_quoted(
    out: &mut String,
    before: &str,
    text: &str,
    after: &str,
) -> Result<(), AllocError>
    ensures { OnOk result (string_bytes out.new ≡ string_bytes out.old ++ (before.now ++ (shown text.now ++ after.now))) }
{
    out.push_str(before)?;
    push_shown(out, text)?;
    out.push_str(after)
}

/// Adds a text in rows.
fn push_in_rows(out: &mut String, text: &[u8]) -> Result<(), AllocError>
    ensures { OnOk result (string_bytes out.new ≡ string_bytes out.old ++ in_rows row_width text.now) }
{
    let mut room = ROW_WIDTH;
    for byte in text {
        if *byte == b' ' && room == 0 {
            out.push_str("\\l")?;
            room = ROW_WIDTH;
        } else {
            push_byte(out, *byte)?;
            room = room.saturating_sub(1);
        }
    }
    Ok(())
}

/// Adds the rows of a text, none if it is empty.
pub(crate) fn push_rows(out: &mut String, text: &str) -> Result<(), AllocError>
    ensures { OnOk result (string_bytes out.new ≡ string_bytes out.old ++ rows text.now) }
{
    if text.is_empty() {
        return Ok(());
    }
    push_in_rows(out, text.as_bytes())?;
    out.push_str("\\l")
}
