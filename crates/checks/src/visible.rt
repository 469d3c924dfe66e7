ghost use Rattle.std.specs.Prelude.{◌≡◌, ◌<◌, ◌++◌, false, IfOk, OnOk};
ghost use Rattle.std.specs.Fmt.{digit_glyph};
ghost use Rattle.std.specs.String.{string_bytes};
ghost use Rattle.checks.specs.Visible.{two_digits, escaped, visible_char, visible};

use plain::Memory;
use sentences::is_unseen;
use std::alloc::{AllocError, Global};

/// A hexadecimal digit.
fn hex_digit(digit: u8) -> char
    requires { digit < 16 }
    ensures { result ≡ digit_glyph false digit }
{
    if digit < 10 {
        char::from(b'0' + digit)
    } else {
        char::from(b'a' + (digit - 10))
    }
}

/// Adds a byte as two hexadecimal digits.
fn push_digits(shown: &mut String, byte: u8) -> Result<(), AllocError>
    ensures { OnOk result (string_bytes shown.new ≡ string_bytes shown.old ++ two_digits byte) }
{
    shown.push(hex_digit(byte / 16))?;
    shown.push(hex_digit(byte % 16))
}

/// Adds the number of a character, as `\x1b`, or as `\u200b` if it doesn't fit in a byte.
#[tactic(auto, unfolding(crate::specs::Visible::escaped))]
fn push_escaped(shown: &mut String, number: u16) -> Result<(), AllocError>
    ensures { OnOk result (string_bytes shown.new ≡ string_bytes shown.old ++ escaped number) }
{
    if number < 256 {
        shown.push_str("\\x")?;
        push_digits(shown, (number % 256) as u8)
    } else {
        shown.push_str("\\u")?;
        push_digits(shown, (number / 256) as u8)?;
        push_digits(shown, (number % 256) as u8)
    }
}

/// Adds what is shown of a character.
fn push_visible(shown: &mut String, character: char) -> Result<(), AllocError>
    ensures { OnOk result (string_bytes shown.new ≡ string_bytes shown.old ++ visible_char character) }
{
    if is_unseen(character) && (character as u32) < 65536 {
        push_escaped(shown, (character as u32) as u16)
    } else {
        shown.push(character)
    }
}

/// A line as it is shown: each character that can't be seen, or that a terminal may obey, by its number.
pub(crate) fn visible(alloc: Global, line: &str) -> Result<String, Memory>
    ensures { IfOk result (λ shown. string_bytes shown ≡ visible line.now) }
{
    let mut shown = String::new(alloc);
    for character in line.chars() {
        push_visible(&mut shown, character)?;
    }
    Ok(shown)
}
