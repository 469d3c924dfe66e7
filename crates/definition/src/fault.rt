use plain::Fault;
use thiserror::Error;

/// What is wrong with a definition, and at which operation: its place is the number of operations before it.
#[derive(Clone, Copy, Debug, PartialEq, Eq, Error)]
pub enum Defect {
    /// It is no operation that is well formed. A text that is no definition at all is malformed at place 0.
    #[error("malformed operation at place {0}")]
    Malformed(u32),
    /// An input names no operation before.
    #[error("unknown input at place {0}")]
    Unknown(u32),
    /// An equal operation stands before.
    #[error("repeated operation at place {0}")]
    Repeated(u32),
    /// A different operation before has the same address.
    #[error("address clash at place {0}")]
    Clash(u32),
}

/// Why a definition isn't written or read.
pub type DefFault = Fault<Defect>;
