use crate::kept::{Kept, nothing};
use crate::{Line, LineFault};
use plain::Memory;
use std::alloc::Global;
use std::marker::Model;

/// Reads a Dockerfile's text, which is fed in pieces, and gives its logical lines. However the text was cut, the
/// lines are the same.
///
/// Of the text it keeps the logical lines that are complete, and the bytes of the one in progress, with the heredocs' lines so far.
///
/// Contracts say of a reader which text it holds: all pieces that it was fed, one after the other.
#[derive(Debug, Drop)]
pub struct Reader {
    kept: Kept,
}

impl Model for Reader {
    ghost use Rattle.std.specs.Prelude.{ℕ, List};
    ghost use Rattle.lines.specs.Reader.{Holds};
    ghost use Rattle.lines.specs.declared.kept.Kept.{Kept as KeptValue};

    ghost Value = { KeptValue };

    ghost view = { λ r. r.kept };

    ghost invariant = { λ r. (text : List ℕ) × Holds r.kept text };
}

impl Reader {
    ghost use Rattle.std.specs.Prelude.{◌++◌, ℕ, List, [], OnOk, OnErr};
    ghost use Rattle.lines.specs.Reader.{Holds};
    ghost use Rattle.lines.specs.Ready.{AreReady};
    ghost use Rattle.lines.specs.Text.{ReadsText};

    /// A reader that was fed nothing. It takes no memory.
    pub fn new(alloc: Global) -> Reader
        ensures { Holds result [] }
    {
        Reader {
            kept: nothing(alloc),
        }
    }

    /// Takes a piece of the text. After `Memory` the reader still holds the same text.
    pub fn feed(&mut self, alloc: Global, piece: &[u8]) -> Result<(), Memory>
        ensures ok { OnOk result ((text : List ℕ) → Holds self.old text → Holds self.new (text ++ piece.now)) }
        ensures err { OnErr result ((text : List ℕ) → Holds self.old text → Holds self.new text) }
    {
        self.kept.feed(alloc, piece)
    }

    /// The logical lines of the text so far that are complete, closing lines of heredocs included, each of them by an LF. There are
    /// none once a byte of the text is at fault, for which a character that is only begun doesn't count, or something is wrong with
    /// its complete lines, for which an open heredoc doesn't count. It takes no memory.
    pub fn ready(&self) -> &[Line]
        ensures { (text : List ℕ) → Holds self.now text → AreReady text result.now }
    {
        self.kept.ready()
    }

    /// The logical lines of the whole text, or why it is refused: R18 at line 0 where it has more than 1,048,576 bytes; else R01 at
    /// the line of the first byte that isn't UTF-8; else the least by line, then by number, of R02 at a directive that is there for
    /// the second time, R03 at an escape directive whose value is neither a backslash nor a backtick, R08 at an instruction with an
    /// unclosed heredoc, and R18 at the 4,097th logical line. Lines are numbered from 1 on.
    pub fn finish(self, alloc: Global) -> Result<Vec<Line>, LineFault>
        ensures { (text : List ℕ) → Holds self text → ReadsText text result }
    {
        let Reader { kept } = self;
        kept.finish(alloc)
    }
}
