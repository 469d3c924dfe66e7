ghost use Rattle.std.specs.Prelude.{◌≡◌, ◌<◌};
ghost use Rattle.expand.specs.PrivateReading.{sign_at, sign_of, code_point};

/// A character that the scan of a text leaves.
#[derive(Clone, Copy, Debug, PartialEq, Eq)]
pub enum Character {
    /// It may be syntax, as the `$` of `$v`.
    Active(char),
    /// It is plain text, whatever it is: it stood in single quotes or behind an escape character that acts.
    Literal(char),
}

impl Character {
    /// The character, without its mark.
    pub fn value(self) -> char
        ensures { result ≡ code_point self }
    {
        match self {
            Character::Active(character) => character,
            Character::Literal(character) => character,
        }
    }

    /// What it is to the syntax of variables.
    pub fn sign(self) -> Sign
        ensures sign { result ≡ sign_of self }
        ensures letter { result ≡ Sign.Letter → code_point self < 128 }
        ensures digit { result ≡ Sign.Digit → code_point self < 128 }
    {
        match self {
            Character::Active(character) => sign_at(character),
            Character::Literal(_) => Sign::Other,
        }
    }
}

/// What a character is to the syntax of variables. One that isn't active is `Other`.
#[derive(Clone, Copy, Debug, PartialEq, Eq)]
pub enum Sign {
    Dollar,
    OpenBrace,
    CloseBrace,
    Colon,
    Dash,
    Plus,
    Question,
    /// A letter of ASCII or `_`, with which a name begins.
    Letter,
    Digit,
    Other,
}

#[tactic(auto, unfolding(crate::specs::PrivateReading::sign_at))]
fn sign_at(character: char) -> Sign
    ensures sign { result ≡ sign_at character }
    ensures letter { result ≡ Sign.Letter → character < 128 }
    ensures digit { result ≡ Sign.Digit → character < 128 }
{
    match character {
        '$' => Sign::Dollar,
        '{' => Sign::OpenBrace,
        '}' => Sign::CloseBrace,
        ':' => Sign::Colon,
        '-' => Sign::Dash,
        '+' => Sign::Plus,
        '?' => Sign::Question,
        'A'..='Z' | 'a'..='z' | '_' => Sign::Letter,
        '0'..='9' => Sign::Digit,
        _ => Sign::Other,
    }
}
