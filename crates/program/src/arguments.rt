use plain::Fault;
use thiserror::Error;

/// A word of the command line is no UTF-8.
#[derive(Clone, Copy, Debug, PartialEq, Eq, Error)]
#[error("invalid UTF-8 was detected in one or more arguments")]
pub struct NotText;

/// Why there are no words of a command line: one of them is no UTF-8, or there was no memory for them.
pub type WordsFault = Fault<NotText>;
