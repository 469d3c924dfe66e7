ghost use Rattle.std.specs.Prelude.{◌≡◌};
ghost use Rattle.words.specs.Class.{class_of};

use lines::Escape;

/// What a character is where a text is cut into words.
#[derive(Clone, Copy, Debug, PartialEq, Eq)]
pub enum Class {
    Blank,
    SingleQuote,
    DoubleQuote,
    Dollar,
    Equals,
    EscapeCharacter,
    Other,
}

impl Class {
    /// What a character is, by the file's escape character. One beyond ASCII is `Other`.
    #[tactic(auto, unfolding(crate::specs::Class::class_of))]
    pub fn of(escape: Escape, character: char) -> Class
        ensures { result ≡ class_of escape character }
    {
        match character {
            ' ' | '\t' => Class::Blank,
            '\'' => Class::SingleQuote,
            '"' => Class::DoubleQuote,
            '$' => Class::Dollar,
            '=' => Class::Equals,
            _ if character == char::from(escape.byte()) => Class::EscapeCharacter,
            _ => Class::Other,
        }
    }
}

/// What a byte of a text is. The bytes of a character beyond ASCII are `Other`, each of them.
pub fn class_of(escape: Escape, byte: u8) -> Class
    ensures { result ≡ class_of escape byte }
{
    Class::of(escape, char::from(byte))
}
