use crate::{Escape, Heredoc, Line, Mark};
use plain::{Items, Refusal, Text};

/// Which directives there were so far.
#[derive(Clone, Copy, Debug, PartialEq, Eq)]
pub struct Seen {
    pub escape: bool,
    pub syntax: bool,
    pub check: bool,
}

/// A logical line that the next line continues.
#[derive(Debug, Drop)]
pub struct Pending {
    pub number: u32,
    /// What its lines have added so far.
    pub text: Text,
}

/// A logical line whose heredocs are being read.
#[derive(Debug, Drop)]
pub struct Unclosed {
    pub number: u32,
    pub text: Text,
    /// All its marks.
    pub marks: Items<Mark>,
    /// The heredocs that are closed.
    pub heredocs: Items<Heredoc>,
    /// The mark of the heredoc that is being read.
    pub mark: Mark,
    /// That heredoc's lines so far.
    pub body: Text,
}

/// Where in the file the next line is.
#[derive(Debug, Drop)]
pub enum Position {
    /// At the top, where there were only directives so far.
    Top(Seen),
    /// Between logical lines.
    Between,
    /// Inside a logical line that is continued.
    Within(Pending),
    /// In the heredocs of a logical line.
    Bodies(Unclosed),
}

/// What the lines of a file that were read so far have given.
#[derive(Debug, Drop)]
pub struct FileState {
    pub escape: Escape,
    /// How many lines were read.
    pub count: u32,
    pub position: Position,
    /// How many logical lines `lines` may have.
    pub room: usize,
    /// The logical lines that are complete.
    pub lines: Items<Line>,
    /// All that is wrong with the lines, in the order in which it was found.
    pub faults: Items<Refusal>,
}
