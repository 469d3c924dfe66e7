ghost use Rattle.std.specs.Prelude.{◌≡◌, Some};
ghost use Rattle.expand.specs.Expanding.{worse};

use plain::limits::MOST_TEXT_BYTES;
use plain::{Fault, Text};
use thiserror::Error;

/// Why a word has no value.
#[derive(Debug, Drop, Error)]
pub enum Unexpanded {
    /// Its value, or the text that it is refused with, has more bytes than an expanded text may have: R18.
    #[error("an expanded text would have more than {MOST_TEXT_BYTES} bytes")]
    TooLong,
    /// A variable that is required doesn't pass its test: R21, with the value of the word after its `?`.
    #[error("a required variable is unset or empty: {}", .0.as_str())]
    Required(Text),
}

/// Why a word isn't expanded: it has no value, or there is no memory for it.
pub type ExpandFault = Fault<Unexpanded>;

impl Unexpanded {
    /// What is reported of a line: this is against one of its texts, and `earlier`, if anything, against those before it.
    pub fn after(self, earlier: Option<Unexpanded>) -> Unexpanded
        ensures { Some result ≡ worse earlier (Some self) }
    {
        match (earlier, self) {
            (Some(Unexpanded::TooLong), _) | (_, Unexpanded::TooLong) => Unexpanded::TooLong,
            (Some(Unexpanded::Required(text)), _) => Unexpanded::Required(text),
            (None, Unexpanded::Required(text)) => Unexpanded::Required(text),
        }
    }
}
