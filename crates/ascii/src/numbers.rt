ghost use Rattle.std.specs.Prelude.{◌≡◌};
ghost use Rattle.std.specs.Str.{all_ascii_digits};
ghost use Rattle.ascii.specs.Numbers.{decimal_of};

/// Whether bytes are decimal digits alone. It is so of none.
pub fn are_digits(bytes: &[u8]) -> bool
    ensures { result ≡ all_ascii_digits bytes.now }
{
    for byte in bytes {
        if !byte.is_ascii_digit() {
            return false;
        }
    }
    true
}

/// The number that decimal digits write: one digit at least, leading zeros allowed, no sign; none where the text has anything else, or
/// the number is above 4,294,967,295 (own).
#[tactic(auto, unfolding(crate::specs::Numbers::decimal_of))]
pub fn parse_number(text: &str) -> Option<u32>
    ensures { result ≡ decimal_of text.now }
{
    // `parse` takes a sign too.
    if !are_digits(text.as_bytes()) {
        return None;
    }
    match text.parse::<u32>() {
        Ok(number) => Some(number),
        Err(_) => None,
    }
}
