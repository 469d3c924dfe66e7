use plain::Fault;
use thiserror::Error;

/// The first line of an ignore file that is bad: it isn't UTF-8, its pattern is malformed, or it is a `!` alone. A refusal tells it as `R19`.
#[derive(Clone, Copy, Debug, PartialEq, Eq, Error)]
#[error("line {number} of the ignore file is malformed")]
pub struct BadLine {
    /// Its number, counted from 1.
    pub number: usize,
}

/// Why bytes give no ignore file. Where there was no memory for it, nothing is said of the bytes.
pub type IgnoreFault = Fault<BadLine>;
