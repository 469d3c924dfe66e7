// What isn't known to be text, as a person reads it.
ghost use Rattle.std.specs.Prelude.{◌≡◌, ◌++◌, IfOk, OnOk};
ghost use Rattle.std.specs.String.{string_bytes};
ghost use Rattle.packing.specs.Shown.{is_seen, shown_byte, shown_bytes};

use plain::Memory;
use std::alloc::Global;

/// Whether a byte is a character of ASCII that is seen.
fn is_seen(byte: u8) -> bool
    ensures { result ≡ is_seen byte }
{
    32 <= byte && byte <= 126
}

/// Bytes, of which each that isn't seen stands as its number, as `\xff`.
pub(crate) fn shown_bytes(alloc: Global, bytes: &[u8]) -> Result<String, Memory>
    ensures { IfOk result (λ shown. string_bytes shown ≡ shown_bytes bytes.now) }
{
    let mut shown = String::new(alloc);
    for byte in bytes {
        push_byte(alloc, &mut shown, *byte)?;
    }
    Ok(shown)
}

/// Adds a byte as it is shown.
fn push_byte(alloc: Global, shown: &mut String, byte: u8) -> Result<(), Memory>
    ensures { OnOk result (string_bytes shown.new ≡ string_bytes shown.old ++ shown_byte byte) }
{
    if is_seen(byte) {
        shown.push(char::from(byte))?;
        return Ok(());
    }
    shown.push_str("\\x")?;
    let bytes = [byte];
    let digits = hex::encode(alloc, bytes.as_slice())?;
    shown.push_str(digits.as_str())?;
    Ok(())
}
