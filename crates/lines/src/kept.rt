ghost use Rattle.std.specs.Prelude.{◌≡◌, ◌≢◌, ◌≤◌, ◌<◌, ◌+◌, ◌-◌, ◌==◌, ◌++◌, true, ℕ, List, [], OnOk, OnErr, IfOk, IfErr, IsUtf8, length, take, drop, count_by};
ghost use Rattle.std.specs.Str.{IsValidUpTo};
ghost use Rattle.std.specs.Str.Lossy.{utf8_error_len};
ghost use Rattle.std.specs.Prelude.{Some};
ghost use Rattle.plain.specs.Limits.{most_dockerfile_bytes};
ghost use Rattle.plain.specs.declared.fault.Fault.TheVariants.{Because};
ghost use Rattle.lines.specs.Faults.{refusal};
ghost use Rattle.lines.specs.PrivateRead.{first_progress, IsReadFrom};
ghost use Rattle.lines.specs.PrivateScan.{block_lines, state_at, marks_in, AnswersLast};
ghost use Rattle.lines.specs.PrivateSteps.{initial_state, after_lines, end_file};
ghost use Rattle.lines.specs.Reader.{IsUnchanged, Knows, Holds, WasReadTo};
ghost use Rattle.lines.specs.Ready.{AreReady, HasNoLf};
ghost use Rattle.lines.specs.Text.{IsShort, ReadsText};
ghost use Rattle.lines.specs.declared.kept.Known.TheVariants.{Fine, Refused, Bad, TooLong};

use crate::blocks::{joined, read_block};
use crate::faults::least;
use crate::pieces::{line_feeds, take_lines, whole_characters};
use crate::scan::{Place, Progress, Scan, Stage, Stop};
use crate::state::{FileState, Seen};
use crate::steps::end_file;
use crate::text::text_of;
use crate::{Escape, Line, LineFault, Mark};
use plain::limits::{MOST_DOCKERFILE_BYTES, MOST_LINES};
use plain::{Code, Fault, Items, Memory, Refusal};
use std::alloc::Global;

/// What is known to be wrong with the text that was fed.
#[derive(Clone, Copy, Debug, PartialEq, Eq)]
pub enum Known {
    /// Nothing so far.
    Fine,
    /// Its complete lines are refused so, if all of it is UTF-8.
    Refused(Refusal),
    /// The first byte that isn't UTF-8 is on this line.
    Bad(u32),
    /// It has more bytes than a Dockerfile may have.
    TooLong,
}

/// What is kept of a text.
#[derive(Debug, Drop)]
pub struct Kept {
    /// How many bytes were fed, while they aren't too many.
    pub size: usize,
    pub known: Known,
    /// How many lines are complete.
    pub count: u32,
    /// The bytes from the block in progress on. Where the text is refused, those of the character that is only begun.
    pub bytes: Vec<u8>,
    /// How many of these bytes are complete lines.
    pub looked: usize,
    /// How many of these bytes are whole characters.
    pub valid: usize,
    pub progress: Progress,
    /// The marks of the heredocs in progress.
    pub marks: Items<Mark>,
    /// The logical lines that are complete.
    pub lines: Vec<Line>,
}

/// Before the first line of a text.
fn first_progress() -> Progress
    ensures { result ≡ first_progress }
{
    let seen = Seen {
        escape: false,
        syntax: false,
        check: false,
    };
    Progress {
        place: Place {
            escape: Escape::Backslash,
            count: 0,
            seen: Some(seen),
        },
        is_first: true,
        room: MOST_LINES,
        stage: Stage::Fresh,
        escape: Escape::Backslash,
        is_past: false,
    }
}

/// A refusal as the answer.
fn because(code: Code, line: u32) -> LineFault
    ensures { result ≡ Because (refusal code line) }
{
    Fault::Because(Refusal { code, line })
}

/// What is kept of the empty text. It takes no memory.
pub fn nothing(alloc: Global) -> Kept
    ensures { Holds result [] }
{
    Kept {
        size: 0,
        known: Known::Fine,
        count: 0,
        bytes: Vec::new(alloc),
        looked: 0,
        valid: 0,
        progress: first_progress(),
        marks: Items::new(alloc),
        lines: Vec::new(alloc),
    }
}

impl Kept {
    /// Takes a piece of the text. After `Memory` it is the same text.
    #[tactic(auto, unfolding(plain::specs::Limits::most_dockerfile_bytes))]
    pub fn feed(&mut self, alloc: Global, piece: &[u8]) -> Result<(), Memory>
        requires { (text : List ℕ) × Holds self.old text }
        ensures ok { OnOk result ((text : List ℕ) → Holds self.old text → Holds self.new (text ++ piece.now)) }
        ensures err { OnErr result ((text : List ℕ) → Holds self.old text → Holds self.new text) }
    {
        if let Known::TooLong = self.known {
            return Ok(());
        }
        if piece.len() > MOST_DOCKERFILE_BYTES - self.size {
            self.forget(alloc, Known::TooLong);
            self.bytes = Vec::new(alloc);
            return Ok(());
        }
        if let Known::Bad(_) = self.known {
            self.size += piece.len();
            return Ok(());
        }
        let before = self.bytes.len();
        self.bytes.extend_from_slice(piece)?;
        self.size += piece.len();
        match self.look(alloc) {
            Ok(()) => Ok(()),
            Err(memory) => {
                self.size -= piece.len();
                self.bytes.truncate(before);
                Err(memory)
            }
        }
    }

    /// Looks at the bytes that were added.
    #[tactic(auto, unfolding(plain::specs::Limits::most_dockerfile_bytes))]
    fn look(&mut self, alloc: Global) -> Result<(), Memory>
        requires known { (text : List ℕ) × (piece : List ℕ) × IsShort (text ++ piece) × Knows self.old text piece self.old.known }
        requires read { (line : ℕ) → self.old.known ≢ Bad line }
        ensures size { self.new.size ≡ self.old.size }
        ensures ok { OnOk result ((text : List ℕ) (piece : List ℕ) → Knows self.old text piece self.old.known → Knows self.new (text ++ piece) [] self.new.known) }
        ensures err { OnErr result (IsUnchanged self.old self.new) }
    {
        match whole_characters(self.bytes.as_slice(), self.valid) {
            Ok(valid) => {
                let start = match self.known {
                    Known::Fine => self.read_to(alloc, valid)?,
                    _ => valid,
                };
                self.go_to(start, valid);
                Ok(())
            }
            Err(at) => {
                let line = self.count + line_feeds(&self.bytes[self.valid..at]) as u32 + 1;
                self.forget(alloc, Known::Bad(line));
                self.bytes = Vec::new(alloc);
                Ok(())
            }
        }
    }

    /// Reads the lines that are complete now that so many of the bytes are whole characters, and gives how many of the bytes aren't
    /// needed from now on.
    fn read_to(&mut self, alloc: Global, valid: usize) -> Result<usize, Memory>
        requires within { (self.old.valid ≤ valid) × (valid ≤ length self.old.bytes.items) × (self.old.progress.place.count + valid ≤ most_dockerfile_bytes) }
        requires utf8 { IsUtf8 (take valid self.old.bytes.items) }
        requires known { self.old.known ≡ Fine }
        requires cut { (own : List ℕ) × (line : List ℕ) × (rest : List ℕ) × (take valid self.old.bytes.items ≡ own ++ (line ++ rest)) × (length own ≡ self.old.looked)
            × (self.old.looked + length line ≡ self.old.valid) × HasNoLf line
            × IsReadFrom (state_at self.old.progress.place self.old.progress.room) self.old.progress.is_first [] self.old.progress self.old.marks [] own }
        ensures same { (self.new.bytes.items ≡ self.old.bytes.items) × (self.new.valid ≡ self.old.valid) × (self.new.count ≡ self.old.count) × (self.new.size ≡ self.old.size) }
        ensures ok { IfOk result (λ start. (start ≤ valid) × ((gone : List ℕ) (own : List ℕ)
            → IsReadFrom initial_state true self.old.lines.items self.old.progress self.old.marks gone own → WasReadTo self.new gone (take valid self.old.bytes.items) start self.new.known)) }
        ensures err { OnErr result (IsUnchanged self.old self.new) }
    {
        let whole = &self.bytes[..valid];
        let marks = self.marks.as_slice();
        match take_lines(alloc, self.progress, marks, whole, self.looked, self.valid) {
            Ok((scan, looked)) => self.keep(scan, looked),
            Err(Stop::Refused(refusal)) => {
                self.forget(alloc, Known::Refused(refusal));
                Ok(valid)
            }
            Err(Stop::NoMemory) => Err(Memory),
        }
    }

    /// Keeps what lines gave that were read, and gives where the block in progress begins.
    fn keep(&mut self, scan: Scan, looked: usize) -> Result<usize, Memory>
        requires { scan.start ≤ looked }
        ensures same { (self.new.bytes.items ≡ self.old.bytes.items) × (self.new.valid ≡ self.old.valid) × (self.new.count ≡ self.old.count) × (self.new.size ≡ self.old.size)
            × (self.new.known ≡ self.old.known) }
        ensures ok { IfOk result (λ start. (start ≡ scan.start) × (self.new.looked + start ≡ looked) × (self.new.progress ≡ scan.progress)
            × (self.new.marks ≡ marks_in scan.marks self.old.marks) × (self.new.lines.items ≡ self.old.lines.items ++ scan.lines)) }
        ensures err { OnErr result (IsUnchanged self.old self.new) }
    {
        let Scan {
            progress,
            start,
            marks,
            lines,
        } = scan;
        let mut lines = lines.into_vec();
        match self.lines.append(&mut lines) {
            Ok(()) => {
                self.progress = progress;
                self.looked = looked - start;
                if let Some(marks) = marks {
                    self.marks = marks;
                }
                Ok(start)
            }
            Err(_) => {
                drop(lines);
                drop(marks);
                Err(Memory)
            }
        }
    }

    /// Counts the lines of the bytes that are whole characters now, and drops the first ones of all bytes.
    #[tactic(auto, unfolding(plain::specs::Limits::most_dockerfile_bytes))]
    fn go_to(&mut self, start: usize, valid: usize)
        requires { (self.old.valid ≤ valid) × (start ≤ valid) × (valid ≤ length self.old.bytes.items) × (self.old.count + length self.old.bytes.items ≤ most_dockerfile_bytes + self.old.valid) }
        ensures same { (self.new.size ≡ self.old.size) × (self.new.known ≡ self.old.known) × (self.new.looked ≡ self.old.looked) × (self.new.progress ≡ self.old.progress)
            × (self.new.marks ≡ self.old.marks) × (self.new.lines.items ≡ self.old.lines.items) }
        ensures bytes { self.new.bytes.items ≡ drop start self.old.bytes.items }
        ensures valid { self.new.valid ≡ valid - start }
        ensures count { self.new.count ≡ self.old.count + count_by (λ b. b == 10) (take (valid - self.old.valid) (drop self.old.valid self.old.bytes.items)) }
    {
        self.count += line_feeds(&self.bytes[self.valid..valid]) as u32;
        self.valid = valid - start;
        if start > 0 {
            let rest = self.bytes.len() - start;
            self.bytes.rotate_left(start);
            self.bytes.truncate(rest);
        }
    }

    /// Drops the lines of a text whose refusal is known.
    fn forget(&mut self, alloc: Global, known: Known)
        ensures same { (self.new.size ≡ self.old.size) × (self.new.bytes.items ≡ self.old.bytes.items) × (self.new.valid ≡ self.old.valid) × (self.new.count ≡ self.old.count) }
        ensures known { self.new.known ≡ known }
        ensures looked { self.new.looked ≡ 0 }
        ensures lines { self.new.lines.items ≡ [] }
    {
        self.known = known;
        self.looked = 0;
        self.marks = Items::new(alloc);
        self.lines = Vec::new(alloc);
    }

    /// The logical lines of the text so far that are complete, and none where something is wrong with it.
    pub fn ready(&self) -> &[Line]
        ensures { (text : List ℕ) → Holds self.now text → AreReady text result.now }
    {
        if self.progress.is_past {
            return &[];
        }
        self.lines.as_slice()
    }

    /// The logical lines of the whole text, or why it is refused.
    pub fn finish(self, alloc: Global) -> Result<Vec<Line>, LineFault>
        requires { (text : List ℕ) × Holds self text }
        ensures { (text : List ℕ) → Holds self text → ReadsText text result }
    {
        match self.known {
            Known::TooLong => return Err(because(Code::R18, 0)),
            Known::Bad(line) => return Err(because(Code::R01, line)),
            Known::Fine | Known::Refused(_) => {}
        }
        if self.valid < self.bytes.len() {
            return Err(because(Code::R01, self.count + 1));
        }
        if let Known::Refused(refusal) = self.known {
            return Err(Fault::Because(refusal));
        }
        let Kept {
            bytes,
            progress,
            lines,
            ..
        } = self;
        last_lines(alloc, progress, bytes.as_slice(), Items::from_vec(lines))
    }
}

/// What the last block of a text gives, whose last line needs no LF.
fn read_last(alloc: Global, progress: Progress, bytes: &[u8]) -> Result<FileState, Memory>
    requires utf8 { IsUtf8 bytes.now }
    requires short { IsShort bytes.now }
    requires count { progress.place.count ≤ most_dockerfile_bytes }
    ensures { IfOk result (λ state. state ≡ end_file (after_lines (state_at progress.place progress.room) (block_lines progress.is_first bytes.now))) }
{
    let state = read_block(alloc, progress, text_of(bytes))?;
    end_file(alloc, state)
}

/// The lines of a text of which these are above its last block, or its least fault.
fn last_lines(
    alloc: Global,
    progress: Progress,
    bytes: &[u8],
    lines: Items<Line>,
) -> Result<Vec<Line>, LineFault>
    requires utf8 { IsUtf8 bytes.now }
    requires short { IsShort bytes.now }
    requires count { progress.place.count ≤ most_dockerfile_bytes }
    ensures { AnswersLast lines (end_file (after_lines (state_at progress.place progress.room) (block_lines progress.is_first bytes.now))) result }
{
    let state = match read_last(alloc, progress, bytes) {
        Ok(state) => state,
        Err(memory) => {
            drop(lines);
            return Err(memory.into());
        }
    };
    match least(state.faults.as_slice()) {
        Some(refusal) => {
            drop(state);
            drop(lines);
            Err(Fault::Because(refusal))
        }
        None => {
            let FileState { lines: more, .. } = state;
            let all = joined(lines, more)?;
            Ok(all.into_vec())
        }
    }
}
