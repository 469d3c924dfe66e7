use crate::state::Seen;
use crate::{Escape, Line, Mark};
use plain::{Items, Refusal};

/// Where a block begins.
#[derive(Clone, Copy, Debug, PartialEq, Eq)]
pub struct Place {
    pub escape: Escape,
    /// How many lines stand above it.
    pub count: u32,
    /// Which directives there were, if only directives stand above it.
    pub seen: Option<Seen>,
}

/// What the lines of a block so far say of the next one.
#[derive(Clone, Copy, Debug, PartialEq, Eq)]
pub enum Stage {
    /// There was none.
    Fresh,
    /// They are lines of a logical line, which goes on.
    Own,
    /// The heredoc of the mark of this index is read.
    Closing(usize),
}

/// How far the block in progress was looked at.
#[derive(Clone, Copy, Debug, PartialEq, Eq)]
pub struct Progress {
    /// Where that block begins.
    pub place: Place,
    /// Whether that is the text's first byte.
    pub is_first: bool,
    /// How many logical lines there may be below that place.
    pub room: usize,
    pub stage: Stage,
    /// The escape character by which its logical line goes on.
    pub escape: Escape,
    /// Whether its logical line is one more than there may be.
    pub is_past: bool,
}

/// The blocks that are complete, and how far the next one was looked at.
#[derive(Debug, Drop)]
pub struct Scan {
    pub progress: Progress,
    /// The offset of the block in progress.
    pub start: usize,
    /// The marks of its heredocs, if they were read.
    pub marks: Option<Items<Mark>>,
    /// The logical lines of the blocks that are complete.
    pub lines: Items<Line>,
}

/// Why a line wasn't taken.
#[derive(Clone, Copy, Debug, PartialEq, Eq)]
pub enum Stop {
    NoMemory,
    /// The text is refused so, whatever follows that is UTF-8 and not too long.
    Refused(Refusal),
}
