ghost use Rattle.std.specs.Prelude.{◌≡◌};
ghost use Rattle.options.specs.Value.{is_filled, is_truth};

use plain::Text;

/// Whether a value is there and isn't empty.
pub fn is_filled(value: &Option<Text>) -> bool
    ensures { result ≡ is_filled value.now }
{
    match value {
        Some(value) => value.len() != 0,
        None => false,
    }
}

/// Whether a text is `true` or `false`.
pub fn is_truth(value: &str) -> bool
    ensures { result ≡ is_truth value.now }
{
    value == "true" || value == "false"
}
