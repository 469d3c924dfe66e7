ghost use Rattle.std.specs.Prelude.{◌≡◌};
ghost use Rattle.std.specs.List.{list_all};
ghost use Rattle.std.specs.Str.{str_eq_ignore_ascii_case};
ghost use Rattle.instructions.specs.Names.{is_in_stage_name, has_stage_form, is_stage_name};

use ascii::{is_digit, is_letter};

/// Whether two names differ in the case of their letters at most.
pub(crate) fn is_same_name(one: &str, other: &str) -> bool
    ensures { result ≡ str_eq_ignore_ascii_case one.now other.now }
{
    one.eq_ignore_ascii_case(other)
}

/// Whether a byte may stand in the name of a stage.
fn is_in_stage_name(byte: u8) -> bool
    ensures { result ≡ is_in_stage_name byte }
{
    is_letter(byte) || is_digit(byte) || matches!(byte, b'-' | b'_' | b'.')
}

/// Whether bytes may all stand in the name of a stage.
fn are_in_stage_name(bytes: &[u8]) -> bool
    ensures { result ≡ list_all is_in_stage_name bytes.now }
{
    for byte in bytes {
        if !is_in_stage_name(*byte) {
            return false;
        }
    }
    true
}

/// Whether bytes are a letter followed by letters, digits, `-`, `_` and `.`.
fn has_stage_form(bytes: &[u8]) -> bool
    ensures { result ≡ has_stage_form bytes.now }
{
    match bytes {
        [] => false,
        [first, rest @ ..] => is_letter(*first) && are_in_stage_name(rest),
    }
}

/// Whether a text is the name of a stage: of that form, and not `scratch`.
pub(crate) fn is_stage_name(name: &str) -> bool
    ensures { result ≡ is_stage_name name.now }
{
    has_stage_form(name.as_bytes()) && !is_same_name(name, "scratch")
}
