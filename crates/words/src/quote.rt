ghost use Rattle.std.specs.Prelude.{◌≡◌};
ghost use Rattle.words.specs.Quote.{state_after, is_in_quotes};
ghost use Rattle.words.specs.PrivateQuote.{cuts, splits};

use crate::class::Class;

/// Whether the next character of a text that is cut is in quotes, and whether an escape character comes before it.
#[derive(Clone, Copy, Debug, PartialEq, Eq)]
pub enum QuoteState {
    /// Outside quotes, and after no escape character that acts.
    Outside,
    /// Behind an escape character outside quotes.
    Escaped,
    /// In single quotes, where no escape character acts.
    Single,
    /// In double quotes.
    Double,
    /// Behind an escape character in double quotes. Whether it acts or not, no quote ends by what comes next, so it
    /// needs no test here.
    DoubleEscaped,
}

impl QuoteState {
    /// The state after a character of this class.
    pub fn after(self, class: Class) -> QuoteState
        ensures { result ≡ state_after self class }
    {
        match (self, class) {
            (QuoteState::Outside, Class::SingleQuote) => QuoteState::Single,
            (QuoteState::Outside, Class::DoubleQuote) => QuoteState::Double,
            (QuoteState::Outside, Class::EscapeCharacter) => QuoteState::Escaped,
            (QuoteState::Outside, _) => QuoteState::Outside,
            (QuoteState::Escaped, _) => QuoteState::Outside,
            (QuoteState::Single, Class::SingleQuote) => QuoteState::Outside,
            (QuoteState::Single, _) => QuoteState::Single,
            (QuoteState::Double, Class::DoubleQuote) => QuoteState::Outside,
            (QuoteState::Double, Class::EscapeCharacter) => QuoteState::DoubleEscaped,
            (QuoteState::Double, _) => QuoteState::Double,
            (QuoteState::DoubleEscaped, _) => QuoteState::Double,
        }
    }

    /// Whether a character of this class ends a word here: a blank outside quotes does.
    pub(crate) fn cuts(self, class: Class) -> bool
        ensures { result ≡ cuts self class }
    {
        matches!((self, class), (QuoteState::Outside, Class::Blank))
    }

    /// Whether a character of this class splits a word into a key and a value here: an `=` outside quotes does.
    pub(crate) fn splits(self, class: Class) -> bool
        ensures { result ≡ splits self class }
    {
        matches!((self, class), (QuoteState::Outside, Class::Equals))
    }

    /// Whether the next character is in quotes.
    pub fn is_in_quotes(self) -> bool
        ensures { result ≡ is_in_quotes self }
    {
        matches!(
            self,
            QuoteState::Single | QuoteState::Double | QuoteState::DoubleEscaped
        )
    }
}
