ghost use Rattle.std.specs.Prelude.{◌≡◌};
ghost use Rattle.expand.specs.Reasons.{reason_of, reason_number, rejection_of};

use crate::fault::Unexpanded;
use plain::{Code, Fault, Refusal, Text};
use thiserror::Error;

/// Why a line is refused whose texts are expanded.
#[derive(Debug, PartialEq, Eq, Drop, Error)]
pub enum Reason {
    /// By a code alone.
    #[error(transparent)]
    Coded(Code),
    /// By R21: a variable that is required doesn't pass its test. With the value of the word after its `?`.
    #[error("R21 ({})", .0.as_str())]
    Required(Text),
}

/// A refusal of an input whose texts are expanded: why, and the line that it is about, counted from 1; line 0 if it is about
/// none.
#[derive(Debug, PartialEq, Eq, Drop, Error)]
#[error("{reason}, line {line}")]
pub struct Rejection {
    pub reason: Reason,
    pub line: u32,
}

/// Why a line isn't evaluated, its number being known to the caller: it is refused, or there was no memory.
pub type ReasonFault = Fault<Reason>;

/// Why lines aren't evaluated: one is refused, or there was no memory.
pub type RejectionFault = Fault<Rejection>;

impl Reason {
    /// Why a line is refused one of whose texts has no value.
    pub fn of(why: Unexpanded) -> Reason
        ensures { result ≡ reason_of why }
    {
        match why {
            Unexpanded::TooLong => Reason::Coded(Code::R18),
            Unexpanded::Required(text) => Reason::Required(text),
        }
    }

    /// The number of the code, 1 to 21: 21 if a variable is required.
    pub fn number(&self) -> u8
        ensures { result ≡ reason_number self.now }
    {
        match self {
            Reason::Coded(code) => code.number(),
            Reason::Required(_) => 21,
        }
    }
}

impl Rejection {
    /// A refusal by a code alone.
    pub fn of(refusal: Refusal) -> Rejection
        ensures { result ≡ rejection_of refusal }
    {
        Rejection {
            reason: Reason::Coded(refusal.code),
            line: refusal.line,
        }
    }
}
