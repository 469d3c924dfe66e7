ghost use Rattle.std.specs.Prelude.{◌≡◌, ◌<◌, IfSome};
ghost use Rattle.options.specs.Numbers.{owner_of, octal_digit, mode_with, mode_of};

use ascii::parse_number;
use plain::{Mode, Owner};

/// The owner that a text is, `user:group` or `user` alone.
#[tactic(auto, unfolding(crate::specs::Numbers::owner_of))]
pub fn owner_of(text: &str) -> Option<Owner>
    ensures { result ≡ owner_of text.now }
{
    let (user, group) = match text.split_once(':') {
        Some((user, group)) => (parse_number(user), parse_number(group)),
        None => (parse_number(text), parse_number(text)),
    };
    match (user, group) {
        (Some(user), Some(group)) => Some(Owner { user, group }),
        _ => None,
    }
}

/// The value of an octal digit.
fn octal_digit(byte: u8) -> Option<u16>
    ensures value { result ≡ octal_digit byte }
    ensures small { IfSome result (λ digit. digit < 8) }
{
    match byte {
        b'0'..=b'7' => Some(u16::from(byte - b'0')),
        _ => None,
    }
}

/// The mode whose first digit is known.
fn mode_with(first: u16, second: u8, third: u8, fourth: u8) -> Option<Mode>
    requires { first < 8 }
    ensures { result ≡ mode_with first (octal_digit second) (octal_digit third) (octal_digit fourth) }
{
    let second = octal_digit(second)?;
    let third = octal_digit(third)?;
    let fourth = octal_digit(fourth)?;
    Mode::new(((first * 8 + second) * 8 + third) * 8 + fourth)
}

/// The mode that three or four octal digits write.
#[tactic(auto, unfolding(crate::specs::Numbers::mode_of))]
pub fn mode_of(text: &str) -> Option<Mode>
    ensures { result ≡ mode_of text.now }
{
    match text.as_bytes() {
        [second, third, fourth] => mode_with(0, *second, *third, *fourth),
        [first, second, third, fourth] => match octal_digit(*first) {
            Some(first) => mode_with(first, *second, *third, *fourth),
            None => None,
        },
        _ => None,
    }
}
