use plain::{Code, Fault};

/// Why a text of an instruction isn't read: it is refused with a code, as one with an open quote is with R09, or there was no memory, and
/// nothing is said of the text. Its line is known to the caller.
pub type TextFault = Fault<Code>;
