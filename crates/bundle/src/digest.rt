// The digest of an image, which pins the image's name.

ghost use Rattle.std.specs.Prelude.{◌≡◌};
ghost use Rattle.std.specs.List.{list_all};
ghost use Rattle.strict.specs.Gives.{Gives};
ghost use Rattle.borrowed.specs.Seen.{data_of};
ghost use Rattle.bundle.specs.Digest.{is_digit, are_digits, digit_count, is_digest, digest_in};

use borrowed::FromLent;
use json::Value;
use plain::{Fault, Text};
use std::alloc::Global;
use strict::{NotRead, ReadFault};

/// Whether a byte is a hexadecimal digit in lower case.
#[tactic(auto, unfolding(crate::specs::Digest::is_digit))]
fn is_digit(byte: u8) -> bool
    ensures { result ≡ is_digit byte }
{
    (b'0' <= byte && byte <= b'9') || (b'a' <= byte && byte <= b'f')
}

/// Whether all of these bytes are such digits.
fn are_all_digits(bytes: &[u8]) -> bool
    ensures { result ≡ list_all is_digit bytes.now }
{
    for byte in bytes {
        if !is_digit(*byte) {
            return false;
        }
    }
    true
}

/// Whether these bytes are so many such digits.
fn are_digits(count: usize, bytes: &[u8]) -> bool
    ensures { result ≡ are_digits count bytes.now }
{
    bytes.len() == count && are_all_digits(bytes)
}

/// How many digits a SHA-256 has.
#[tactic(auto, unfolding(crate::specs::Digest::digit_count))]
fn digit_count() -> usize
    ensures { result ≡ digit_count }
{
    64
}

/// Whether a text is a digest.
#[tactic(auto, unfolding(crate::specs::Digest::is_digest))]
fn is_digest(text: &str) -> bool
    ensures { result ≡ is_digest text.now }
{
    match text.strip_prefix("sha256:") {
        Some(digits) => are_digits(digit_count(), digits.as_bytes()),
        None => false,
    }
}

/// The digest that a value is. `NotRead` where it is none.
#[tactic(auto, unfolding(crate::specs::Digest::digest_in))]
pub fn read_digest(alloc: Global, value: &Value<'_>) -> Result<Text, ReadFault>
    ensures { Gives result (digest_in (data_of value.now)) }
{
    let text = Text::from_lent(alloc, value)?;
    if is_digest(text.as_str()) {
        return Ok(text);
    }
    Err(Fault::Because(NotRead))
}
