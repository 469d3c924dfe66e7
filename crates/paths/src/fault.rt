use plain::Fault;
use plain::limits::{MOST_COMPONENT_BYTES, MOST_COMPONENTS};
use thiserror::Error;

/// The limit that a path breaks.
#[derive(Clone, Copy, Debug, PartialEq, Eq, Error)]
pub enum PathLimit {
    /// It would have more than 64 components, as `/a` does after it was written 65 times.
    #[error("a path would have more than {MOST_COMPONENTS} components")]
    TooDeep,
    /// It has at most 64 components, and one of them would have more than 255 bytes.
    #[error("a component of a path would have more than {MOST_COMPONENT_BYTES} bytes")]
    TooLong,
}

/// Why a text gives no path. Where there was no memory for the path, nothing is said of the text.
pub type PathFault = Fault<PathLimit>;
