ghost use Rattle.std.specs.Prelude.{◌≡◌};
ghost use Rattle.executor.specs.Number.{status_from, status_of};

use ascii::parse_number;

/// The exit status that a text writes: decimal digits alone, leading zeros allowed, from 1 to 255.
pub(crate) fn status_of(text: &str) -> Option<u8>
    ensures { result ≡ status_of text.now }
{
    status_from(parse_number(text))
}

/// A number as an exit status, where it is one from 1 to 255.
fn status_from(number: Option<u32>) -> Option<u8>
    ensures { result ≡ status_from number }
{
    match number {
        Some(number) => {
            if 0 < number && number < 256 {
                Some(number as u8)
            } else {
                None
            }
        }
        None => None,
    }
}
