ghost use Rattle.std.specs.Prelude.{◌≡◌, ◌<◌, ◌^◌, true, false, option_map, IfSome};
ghost use Rattle.std.specs.Str.Parse.{IsNumeral, digits_value};
ghost use Rattle.serde_json.specs.View.{number_view};
ghost use Rattle.serde_json.specs.Read.{number_of, number_from, float_of};
ghost use Rattle.strict.specs.Strict.{number_in};
ghost use Rattle.borrowed.specs.Seen.{data_of};

use fast_float::Numeral;
use json::Value;
use serde_json::Number;

/// The most digits that are read without a search for a point and an exponent. No number of so few is out of range.
const FEW_DIGITS: usize = 18;

/// The number that a text writes, where it is in range.
pub(crate) fn read_number(text: &str) -> Option<Number>
    ensures { option_map number_view result ≡ number_of text.now }
{
    let bytes = text.as_bytes();
    if let Some(whole) = read_few_digits(bytes) {
        return Some(Number::from(whole));
    }
    match bytes.strip_prefix(b"-") {
        Some(digits) => read_negative(&Numeral::scan(digits)),
        None => read_positive(&Numeral::scan(bytes)),
    }
}

/// The whole number of a text that is a few digits, as most numbers are.
pub(crate) fn read_few_digits(text: &[u8]) -> Option<u64>
    ensures { IfSome result (λ whole. IsNumeral 10 text.now × (whole ≡ digits_value 10 text.now) × (whole < 2 ^ 64)) }
{
    if text.is_empty() || text.len() > FEW_DIGITS {
        return None;
    }
    let mut whole = 0;
    for byte in text {
        if !byte.is_ascii_digit() {
            return None;
        }
        whole = whole * 10 + (*byte - b'0') as u64;
    }
    Some(whole)
}

/// The number of a numeral without a sign.
fn read_positive(numeral: &Numeral<'_>) -> Option<Number>
    ensures { option_map number_view result ≡ number_from false numeral.now }
{
    match numeral.to_u64() {
        Some(whole) => Some(Number::from(whole)),
        None => read_float(false, numeral),
    }
}

/// The number of a numeral behind a minus. There is no whole number `-0`: that is a float.
fn read_negative(numeral: &Numeral<'_>) -> Option<Number>
    ensures { option_map number_view result ≡ number_from true numeral.now }
{
    match numeral.to_i64(true) {
        Some(whole) if whole < 0 => Some(Number::from(whole)),
        _ => read_float(true, numeral),
    }
}

/// The nearest float. One that is too large is none.
fn read_float(is_negative: bool, numeral: &Numeral<'_>) -> Option<Number>
    ensures { option_map number_view result ≡ float_of is_negative numeral.now }
{
    Number::from_f64(numeral.to_float::<f64>(is_negative))
}

/// The whole number of 64 bits that a value is.
pub(crate) fn whole_number_of(value: &Value<'_>) -> Option<u64>
    ensures { result ≡ number_in (data_of value.now) }
{
    let number = read_number(value.as_number()?)?;
    number.as_u64()
}
