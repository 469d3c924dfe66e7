use plain::Fault;
use thiserror::Error;

/// The value isn't what was asked for.
#[derive(Clone, Copy, Debug, PartialEq, Eq, Error)]
#[error("the value isn't what was asked for")]
pub struct NotRead;

/// Why a value isn't read. Where there was no memory for what it holds, nothing is said of the value.
pub type ReadFault = Fault<NotRead>;
