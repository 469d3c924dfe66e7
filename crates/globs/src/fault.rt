use plain::Fault;
use thiserror::Error;

/// A text is no pattern: in one of its components a class isn't closed, is empty or has an item that isn't of the form `c` or `c-c`, or a
/// `\` stands at the end, as in `[a`, `[]`, `[x-]` and `a\`.
#[derive(Clone, Copy, Debug, PartialEq, Eq, Error)]
#[error("the pattern is malformed")]
pub struct Malformed;

/// Why a text gives no pattern. Where there was no memory for the pattern, nothing is said of the text.
pub type GlobFault = Fault<Malformed>;
