use crate::Escape;
use plain::{Exact, Items, Memory, Text};
use std::alloc::Global;

/// The mark of a heredoc, as `<<-"EOF"` (Dockerfile reference, here-documents).
#[derive(Debug, Drop)]
pub struct Mark {
    /// The line that closes the heredoc: a letter or `_` followed by letters, digits or `_`.
    pub name: Text,
    /// Whether the name is in quotes, so that the body is taken as it is.
    pub quoted: bool,
    /// Whether leading tabs are dropped, as `<<-` says.
    pub strips: bool,
}

/// A heredoc: its mark, and its body, each line of it with its LF.
#[derive(Debug, Drop)]
pub struct Heredoc {
    pub mark: Mark,
    pub body: Text,
}

/// A logical line: an instruction with its arguments, as `RUN a \` and the line that it is continued by.
#[derive(Debug, Drop)]
pub struct Line {
    /// The number of its first line in the file, from 1 on.
    pub number: u32,
    /// What its lines join to, without leading and trailing blanks; never empty.
    pub text: Text,
    /// Its heredocs, in the order of their marks.
    pub heredocs: Items<Heredoc>,
    /// The file's escape character.
    pub escape: Escape,
}

impl Exact for Mark {
    fn same(&self, other: &Mark) -> bool {
        self.name.same(&other.name) && self.quoted == other.quoted && self.strips == other.strips
    }

    fn copy(&self, alloc: Global) -> Result<Mark, Memory> {
        let name = self.name.copy(alloc)?;
        Ok(Mark {
            name,
            quoted: self.quoted,
            strips: self.strips,
        })
    }
}

impl Exact for Heredoc {
    fn same(&self, other: &Heredoc) -> bool {
        self.mark.same(&other.mark) && self.body.same(&other.body)
    }

    fn copy(&self, alloc: Global) -> Result<Heredoc, Memory> {
        let mark = self.mark.copy(alloc)?;
        let body = self.body.copy(alloc)?;
        Ok(Heredoc { mark, body })
    }
}

impl Exact for Line {
    fn same(&self, other: &Line) -> bool {
        self.number == other.number
            && self.text.same(&other.text)
            && self.heredocs.same(&other.heredocs)
            && self.escape.same(&other.escape)
    }

    fn copy(&self, alloc: Global) -> Result<Line, Memory> {
        let text = self.text.copy(alloc)?;
        let heredocs = self.heredocs.copy(alloc)?;
        Ok(Line {
            number: self.number,
            text,
            heredocs,
            escape: self.escape,
        })
    }
}
