use plain::{Fault, Refusal};

/// Why a text gives no logical lines: it is refused, where it has more than 1,048,576 bytes, is not UTF-8, has a directive twice, an
/// escape directive with a bad value, an unclosed heredoc, or more than 4,096 logical lines; or there was no memory, and nothing is
/// said of the text.
pub type LineFault = Fault<Refusal>;
