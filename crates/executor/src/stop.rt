use plain::Fault;

/// Why no further command of a run is begun: a command ended with this status, from 1 to 255, or there was no memory for it.
pub(crate) type Stop = Fault<u8>;

/// A path can't be read, or what a command wants of a file can't be.
pub(crate) const REFUSED: u8 = 1;

/// A command is given a wrong number of words, or `fail` no status.
pub(crate) const WRONG_WORDS: u8 = 2;

/// A command reads from a cache, which no outcome may rest on.
pub(crate) const IN_CACHE: u8 = 126;

/// There is no such command. It is what a shell answers.
pub(crate) const UNKNOWN: u8 = 127;
