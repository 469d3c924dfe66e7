ghost use Rattle.std.specs.Prelude.{◌≡◌};
ghost use Rattle.globs.specs.Reading.{sign_at};

/// What a character is to the syntax of patterns.
#[derive(Clone, Copy, Debug)]
pub(crate) enum Sign {
    /// `*`
    Star,
    /// `?`
    Question,
    /// `\`
    Backslash,
    /// `[`
    Open,
    /// `]`
    Close,
    /// `-`
    Hyphen,
    /// `^`
    Caret,
    /// Any other character.
    Other,
}

/// What a character is to the syntax.
#[tactic(auto, unfolding(crate::specs::Reading::sign_at))]
pub(crate) fn sign_of(character: char) -> Sign
    ensures { result ≡ sign_at character }
{
    match character {
        '*' => Sign::Star,
        '?' => Sign::Question,
        '\\' => Sign::Backslash,
        '[' => Sign::Open,
        ']' => Sign::Close,
        '-' => Sign::Hyphen,
        '^' => Sign::Caret,
        _ => Sign::Other,
    }
}
