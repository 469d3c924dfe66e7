// Bytes that are written in hexadecimal. What a digit is worth stands in a table: a processor guesses wrong whether the next digit is a
// letter, and each wrong guess costs more than the look-up.

ghost use Rattle.std.specs.Prelude.{◌≡◌, ◌++◌, ℕ, List, Some, IfErr, OnOk};
ghost use Rattle.std.specs.Option.{option_map};
ghost use Rattle.strict.specs.Gives.{Gives, TellsFault};
ghost use Rattle.entries.specs.Reading.{bytes_of};
ghost use Rattle.entries.specs.PrivateDigits.{digit_number, byte_of};

use plain::{Bytes, Fault};
use std::alloc::Global;
use strict::{NotRead, ReadFault};

/// What stands for a digit where there is none.
const NO_DIGIT: u8 = 16;

/// The value of each character as a digit, whose letters are of either case.
const VALUES: [u8; 256] = [
    16, 16, 16, 16, 16, 16, 16, 16, 16, 16, 16, 16, 16, 16, 16, 16, 16, 16, 16, 16, 16, 16, 16, 16,
    16, 16, 16, 16, 16, 16, 16, 16, 16, 16, 16, 16, 16, 16, 16, 16, 16, 16, 16, 16, 16, 16, 16, 16,
    0, 1, 2, 3, 4, 5, 6, 7, 8, 9, 16, 16, 16, 16, 16, 16, 16, 10, 11, 12, 13, 14, 15, 16, 16, 16,
    16, 16, 16, 16, 16, 16, 16, 16, 16, 16, 16, 16, 16, 16, 16, 16, 16, 16, 16, 16, 16, 16, 16, 10,
    11, 12, 13, 14, 15, 16, 16, 16, 16, 16, 16, 16, 16, 16, 16, 16, 16, 16, 16, 16, 16, 16, 16, 16,
    16, 16, 16, 16, 16, 16, 16, 16, 16, 16, 16, 16, 16, 16, 16, 16, 16, 16, 16, 16, 16, 16, 16, 16,
    16, 16, 16, 16, 16, 16, 16, 16, 16, 16, 16, 16, 16, 16, 16, 16, 16, 16, 16, 16, 16, 16, 16, 16,
    16, 16, 16, 16, 16, 16, 16, 16, 16, 16, 16, 16, 16, 16, 16, 16, 16, 16, 16, 16, 16, 16, 16, 16,
    16, 16, 16, 16, 16, 16, 16, 16, 16, 16, 16, 16, 16, 16, 16, 16, 16, 16, 16, 16, 16, 16, 16, 16,
    16, 16, 16, 16, 16, 16, 16, 16, 16, 16, 16, 16, 16, 16, 16, 16, 16, 16, 16, 16, 16, 16, 16, 16,
    16, 16, 16, 16, 16, 16, 16, 16, 16, 16, 16, 16, 16, 16,
];

/// The value of a digit.
#[tactic(auto, using(crate::proofs::DigitFacts::values_at))]
fn digit_number(digit: u8) -> u8
    ensures { result ≡ digit_number digit }
{
    VALUES[usize::from(digit)]
}

/// The byte of two digits.
fn byte_of(high: u8, low: u8) -> Option<u8>
    ensures { result ≡ byte_of high low }
{
    let high = digit_number(high);
    let low = digit_number(low);
    if high < NO_DIGIT && low < NO_DIGIT {
        Some(high * 16 + low)
    } else {
        None
    }
}

/// Adds the bytes that a text spells. `NotRead` where it spells none; some may be added then.
pub(crate) fn add_digits(text: &str, bytes: &mut Vec<u8>) -> Result<(), ReadFault>
    ensures ok { OnOk result (option_map (λ (more : List ℕ). bytes.old.items ++ more) (bytes_of text.now) ≡ Some bytes.new.items) }
    ensures err { IfErr result (λ fault. TellsFault fault (bytes_of text.now)) }
{
    let mut rest = text.as_bytes();
    'pairs: while let [high, low, behind @ ..] = rest {
        let Some(byte) = byte_of(*high, *low) else {
            return Err(Fault::Because(NotRead));
        };
        bytes.push(byte)?;
        rest = behind;
    }
    if rest.is_empty() {
        Ok(())
    } else {
        Err(Fault::Because(NotRead))
    }
}

/// The bytes that a text spells. `NotRead` where it spells none.
pub(crate) fn read_digits(alloc: Global, text: &str) -> Result<Bytes, ReadFault>
    ensures { Gives result (bytes_of text.now) }
{
    let mut bytes = Vec::with_capacity(alloc, text.len() / 2)?;
    add_digits(text, &mut bytes)?;
    Ok(Bytes::from_vec(bytes))
}
