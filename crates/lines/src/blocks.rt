ghost use Rattle.std.specs.Prelude.{◌≡◌, ◌≢◌, ◌<◌, ◌≤◌, ◌+◌, ◌-◌, ◌==◌, ◌||◌, ◌&&◌, not, false, is_some, ◌++◌, ◌∷◌, [], ℕ, List, IsTrue, IfOk, IfErr, IfSome, IsUtf8, length};
ghost use Rattle.std.specs.Str.Lines.{lines, strip_carriage_return};
ghost use Rattle.plain.specs.Limits.{most_dockerfile_bytes};
ghost use Rattle.lines.specs.Blanks.{is_blank_line};
ghost use Rattle.lines.specs.Continued.{plain_line};
ghost use Rattle.lines.specs.Directives.{directive_of};
ghost use Rattle.lines.specs.Escape.{byte_of};
ghost use Rattle.lines.specs.File.{goes_on, part_of};
ghost use Rattle.lines.specs.PrivateScan.{state_at, place_after, IsLone, after_lone, block_lines, Fits, IsInside, StageIs, IsBehind, IsLater, IsMovedTo, Settles, StopsBy, Stops, marks_in};
ghost use Rattle.lines.specs.PrivateSteps.{after_lines, read_line};
ghost use Rattle.lines.specs.Ready.{IsWhole, HasNoLf};
ghost use Rattle.lines.specs.Text.{IsShort};
ghost use Rattle.lines.specs.declared.line.Mark.{Mark};
ghost use Rattle.lines.specs.declared.scan.Stage.TheVariants.{Fresh, Own, Closing};
ghost use Rattle.lines.specs.declared.scan.Stop.TheVariants.{NoMemory};
ghost use Rattle.lines.specs.declared.state.FileState.{FileState};

use crate::blanks::{continued_part, ends_with, is_blank_line, is_skipped};
use crate::directives::directive_of;
use crate::faults::least;
use crate::marks::is_unmarked;
use crate::scan::{Place, Progress, Scan, Stage, Stop};
use crate::state::{FileState, Position, Seen, Unclosed};
use crate::steps::{closes, read_line};
use crate::text::{text_of, without_byte_order_mark};
use crate::{Escape, Line, Mark};
use ascii::trimmed;
use plain::{Items, Memory, Refusal, Text};
use std::alloc::Global;

/// The state at a place between blocks.
fn state_at(alloc: Global, place: Place, room: usize) -> FileState
    ensures { result ≡ state_at place room }
{
    let position = match place.seen {
        Some(seen) => Position::Top(seen),
        None => Position::Between,
    };
    FileState {
        escape: place.escape,
        count: place.count,
        position,
        room,
        lines: Items::new(alloc),
        faults: Items::new(alloc),
    }
}

/// A block's text: the first one's is without the byte order mark.
fn block_text(is_first: bool, text: &str) -> &str
    ensures lines { lines result.now ≡ block_lines is_first text.now }
    ensures short { length result.now ≤ length text.now }
{
    if is_first {
        without_byte_order_mark(text)
    } else {
        text
    }
}

/// Reads the lines of a block from its place on.
#[tactic(auto, unfolding(plain::specs::Limits::most_dockerfile_bytes))]
pub fn read_block(alloc: Global, progress: Progress, text: &str) -> Result<FileState, Memory>
    requires short { IsShort text.now }
    requires count { progress.place.count ≤ most_dockerfile_bytes }
    ensures { IfOk result (λ state. state ≡ after_lines (state_at progress.place progress.room) (block_lines progress.is_first text.now)) }
{
    let text = block_text(progress.is_first, text);
    let mut state = state_at(alloc, progress.place, progress.room);
    for line in text.lines() {
        state = read_line(alloc, state, line)?;
    }
    Ok(state)
}

/// A line without the CR at its end.
fn without_carriage_return(line: &str) -> &str
    ensures { result.now ≡ strip_carriage_return line.now }
{
    if !ends_with(line.as_bytes(), b'\r') {
        return line;
    }
    &line[..line.len() - 1]
}

/// Whether a logical line goes on after this line of it: the line is blank, a comment, or ends in the escape character, which isn't
/// escaped itself (Dockerfile reference, `escape`).
pub fn goes_on(escape: Escape, line: &str) -> bool
    ensures { result ≡ goes_on (byte_of escape) line.now }
{
    is_skipped(line) || continued_part(escape, line).is_some()
}

/// What a line adds to its logical line: nothing where it is blank or a comment, what stands before the escape character where it goes
/// on, and else all of it.
pub fn part_of(escape: Escape, line: &str) -> &str
    ensures { result.now ≡ part_of (byte_of escape) line.now }
{
    if is_skipped(line) {
        return "";
    }
    match continued_part(escape, line) {
        Some(part) => part,
        None => line,
    }
}

/// Whether a logical line is past the limit once this line of it goes on.
fn is_past(progress: Progress, line: &str) -> bool
    ensures { result ≡ (progress.is_past || ((progress.room == 0) && not (is_blank_line (part_of (byte_of progress.escape) line.now)))) }
{
    progress.is_past || (progress.room == 0 && !is_blank_line(part_of(progress.escape, line)))
}

/// How far a block is known after one of the lines of its instruction, and none if that may end them.
fn after_own(progress: Progress, line: &str) -> Option<Progress>
    requires { progress.stage ≡ Own }
    ensures later { IfSome result (λ next. IsLater progress next) }
    ensures state { IfSome result (λ next. (marks : List Mark) (state : FileState) → StageIs marks progress state → StageIs marks next (read_line state line.now)) }
{
    if !goes_on(progress.escape, line) {
        return None;
    }
    let past = is_past(progress, line);
    let mut next = progress;
    next.is_past = past;
    Some(next)
}

/// How far a block is known after a line of the heredoc of this index, and none if that may end them.
fn after_closing(progress: Progress, index: usize, marks: &[Mark], line: &str) -> Option<Progress>
    requires { progress.stage ≡ Closing index }
    ensures later { IfSome result (λ next. IsLater progress next) }
    ensures state { IfSome result (λ next. (state : FileState) → StageIs marks.now progress state → StageIs marks.now next (read_line state line.now)) }
{
    match marks.get(index) {
        None => None,
        Some(mark) => {
            if !closes(mark, line) {
                return Some(progress);
            }
            match marks.get(index + 1) {
                None => None,
                Some(_) => {
                    let mut next = progress;
                    next.stage = Stage::Closing(index + 1);
                    Some(next)
                }
            }
        }
    }
}

/// How far a block is known after a line that doesn't end it, and none if that may end it.
fn next_progress(progress: Progress, marks: &[Mark], line: &str) -> Option<Progress>
    ensures other { IfSome result (λ next. progress.stage ≢ Fresh) }
    ensures later { IfSome result (λ next. IsLater progress next) }
    ensures state { IfSome result (λ next. (state : FileState) → StageIs marks.now progress state → StageIs marks.now next (read_line state line.now)) }
{
    match progress.stage {
        Stage::Fresh => None,
        Stage::Own => after_own(progress, line),
        Stage::Closing(index) => after_closing(progress, index, marks, line),
    }
}

/// How far a scan's block is known after a line that doesn't end it, and none if that may end it.
fn progress_behind(scan: &Scan, kept: &[Mark], line: &str) -> Option<Progress>
    ensures other { IfSome result (λ next. scan.now.progress.stage ≢ Fresh) }
    ensures later { IfSome result (λ next. IsLater scan.now.progress next) }
    ensures state { IfSome result (λ next. (state : FileState) → StageIs (marks_in scan.now.marks kept.now) scan.now.progress state
        → StageIs (marks_in scan.now.marks kept.now) next (read_line state line.now)) }
{
    match &scan.marks {
        Some(marks) => next_progress(scan.progress, marks.as_slice(), line),
        None => next_progress(scan.progress, kept, line),
    }
}

/// The lines of two lists, one after the other.
pub fn joined(one: Items<Line>, other: Items<Line>) -> Result<Items<Line>, Memory>
    ensures { IfOk result (λ all. all ≡ one ++ other) }
{
    let mut all = one.into_vec();
    let mut more = other.into_vec();
    match all.append(&mut more) {
        Ok(()) => Ok(Items::from_vec(all)),
        Err(_) => {
            drop(all);
            drop(more);
            Err(Memory)
        }
    }
}

/// What a scan is after a block that is complete and gave these lines.
#[tactic(auto, unfolding(plain::specs::Limits::most_dockerfile_bytes))]
fn moved(
    scan: Scan,
    place: Place,
    room: usize,
    lines: Items<Line>,
    size: usize,
) -> Result<Scan, Stop>
    requires size { scan.start + size ≤ most_dockerfile_bytes }
    requires room { length lines ≤ room }
    ensures ok { IfOk result (λ next. IsMovedTo scan place room lines size next) }
    ensures err { IfErr result (λ stop. StopsBy [] stop) }
{
    let room = room - lines.len();
    let Scan {
        progress,
        start,
        marks,
        lines: found,
    } = scan;
    match joined(found, lines) {
        Ok(lines) => Ok(Scan {
            progress: Progress {
                place,
                is_first: false,
                room,
                stage: Stage::Fresh,
                escape: progress.escape,
                is_past: false,
            },
            start: start + size,
            marks,
            lines,
        }),
        Err(_) => {
            drop(marks);
            Err(Stop::NoMemory)
        }
    }
}

/// Ends a block at a place between blocks, at which it gave these lines and had these faults.
fn rested(
    scan: Scan,
    place: Place,
    room: usize,
    lines: Items<Line>,
    faults: Items<Refusal>,
    size: usize,
) -> Result<Scan, Stop>
    requires size { scan.start + size ≤ most_dockerfile_bytes }
    requires room { faults ≡ [] → length lines ≤ room }
    ensures ok { IfOk result (λ next. (faults ≡ []) × IsMovedTo scan place room lines size next) }
    ensures err { IfErr result (λ stop. StopsBy faults stop) }
{
    match least(faults.as_slice()) {
        Some(refusal) => {
            drop(scan);
            drop(lines);
            drop(faults);
            Err(Stop::Refused(refusal))
        }
        None => {
            drop(faults);
            moved(scan, place, room, lines, size)
        }
    }
}

/// What a scan is after a block's bytes that give this state.
fn settle(scan: Scan, state: FileState, size: usize) -> Result<Scan, Stop>
    requires size { scan.start + size ≤ most_dockerfile_bytes }
    requires fits { Fits state }
    requires room { state.room ≡ scan.progress.room }
    requires inside { IsInside state }
    ensures ok { IfOk result (λ next. (kept : List Mark) → Settles kept scan state size next) }
    ensures err { IfErr result (λ stop. Stops state stop) }
{
    let FileState {
        escape,
        count,
        position,
        room,
        lines,
        faults,
    } = state;
    match position {
        Position::Top(seen) => {
            let place = Place {
                escape,
                count,
                seen: Some(seen),
            };
            rested(scan, place, room, lines, faults, size)
        }
        Position::Between => {
            let place = Place {
                escape,
                count,
                seen: None,
            };
            rested(scan, place, room, lines, faults, size)
        }
        Position::Within(pending) => {
            drop(lines);
            drop(faults);
            let mut scan = scan;
            scan.progress.stage = Stage::Own;
            scan.progress.escape = escape;
            scan.progress.is_past = room == 0 && !is_blank_line(pending.text.as_str());
            drop(pending);
            Ok(scan)
        }
        Position::Bodies(unclosed) => {
            drop(lines);
            let Unclosed {
                marks,
                heredocs,
                ..
            } = unclosed;
            let mut scan = scan;
            scan.progress.stage = Stage::Closing(heredocs.len());
            scan.progress.is_past = !faults.is_empty();
            scan.marks = Some(marks);
            drop(heredocs);
            drop(faults);
            Ok(scan)
        }
    }
}

/// Reads a block that these bytes may complete.
fn take_block(alloc: Global, scan: Scan, block: &[u8]) -> Result<Scan, Stop>
    requires utf8 { IsUtf8 block.now }
    requires size { scan.start + length block.now ≤ most_dockerfile_bytes }
    requires count { scan.progress.place.count ≤ most_dockerfile_bytes }
    requires inside { IsInside (after_lines (state_at scan.progress.place scan.progress.room) (block_lines scan.progress.is_first block.now)) }
    ensures ok { IfOk result (λ next. (kept : List Mark) → Settles kept scan
        (after_lines (state_at scan.progress.place scan.progress.room) (block_lines scan.progress.is_first block.now)) (length block.now) next) }
    ensures err { IfErr result (λ stop. Stops
        (after_lines (state_at scan.progress.place scan.progress.room) (block_lines scan.progress.is_first block.now)) stop) }
{
    match read_block(alloc, scan.progress, text_of(block)) {
        Ok(state) => settle(scan, state, block.len()),
        Err(_) => {
            drop(scan);
            Err(Stop::NoMemory)
        }
    }
}

/// Whether a line is one more directive, at a place that only directives stand above if `seen` is some.
fn is_directive(seen: Option<Seen>, line: &str) -> bool
    ensures { result ≡ (is_some seen && is_some (directive_of line.now)) }
{
    seen.is_some() && directive_of(line).is_some()
}

/// Whether the next line begins a block. The first one of the text may have a byte order mark, and is left to the block.
fn is_between(progress: &Progress) -> bool
    ensures { IsTrue result → (progress.now.stage ≡ Fresh) × (progress.now.is_first ≡ false) }
{
    matches!(progress.stage, Stage::Fresh) && !progress.is_first
}

/// The place after one more line, below which no directive stands.
#[tactic(auto, unfolding(plain::specs::Limits::most_dockerfile_bytes))]
fn place_after(place: Place) -> Place
    requires { place.count ≤ most_dockerfile_bytes }
    ensures { result ≡ place_after place }
{
    Place {
        escape: place.escape,
        count: place.count + 1,
        seen: None,
    }
}

/// Where the next block begins after a line between blocks that is dropped, and none if it isn't such a line.
fn after_dropped(progress: &Progress, line: &str) -> Option<Place>
    requires { progress.now.place.count ≤ most_dockerfile_bytes }
    ensures fresh { IfSome result (λ place. (progress.now.stage ≡ Fresh) × (progress.now.is_first ≡ false)) }
    ensures state { IfSome result (λ place. read_line (state_at progress.now.place progress.now.room) line.now ≡ state_at place progress.now.room) }
{
    if !is_between(progress) || !is_skipped(line) || is_directive(progress.place.seen, line) {
        return None;
    }
    Some(place_after(progress.place))
}

/// What a scan is after a line of so many bytes that is dropped, after which the next block begins at this place.
#[tactic(auto, unfolding(plain::specs::Limits::most_dockerfile_bytes))]
fn moved_over(scan: Scan, place: Place, size: usize) -> Scan
    requires { scan.start + size ≤ most_dockerfile_bytes }
    ensures { result ≡ record scan { progress = record scan.progress { place = place }; start = scan.start + size } }
{
    let mut scan = scan;
    scan.progress.place = place;
    scan.start += size;
    scan
}

/// The text of a line that is a logical line by itself, and none where that isn't known.
fn lone_in(escape: Escape, line: &str) -> Option<&str>
    ensures { IfSome result (λ text. IsLone (byte_of escape) line.now text.now) }
{
    if goes_on(escape, line) {
        return None;
    }
    let text = trimmed(line);
    if is_unmarked(text) { Some(text) } else { None }
}

/// The text of a line between blocks that is a logical line by itself, and none where that isn't known or there may be no more lines.
/// Such a line isn't dropped, so it is no directive.
fn lone_text<'a>(progress: &Progress, line: &'a str) -> Option<&'a str>
    ensures fresh { IfSome result (λ text. (progress.now.stage ≡ Fresh) × (progress.now.is_first ≡ false)) }
    ensures room { IfSome result (λ text. 0 < progress.now.room) }
    ensures state { IfSome result (λ text. read_line (state_at progress.now.place progress.now.room) line.now ≡ after_lone progress.now.place progress.now.room text.now) }
{
    if !is_between(progress) || progress.room == 0 {
        return None;
    }
    lone_in(progress.place.escape, line)
}

/// The logical line that a line of this text is by itself, at a place.
#[tactic(auto, unfolding(plain::specs::Limits::most_dockerfile_bytes))]
fn lone_line(alloc: Global, place: Place, text: &str) -> Result<Line, Memory>
    requires { place.count ≤ most_dockerfile_bytes }
    ensures { IfOk result (λ line. line ≡ plain_line (place.count + 1) place.escape text.now) }
{
    let text = Text::from_str(alloc, text)?;
    Ok(Line {
        number: place.count + 1,
        text,
        heredocs: Items::new(alloc),
        escape: place.escape,
    })
}

/// What a scan is after a line of so many bytes that is a logical line of this text by itself. It is put into the scan's own list, with
/// no state and no list of its block.
#[tactic(auto, unfolding(plain::specs::Limits::most_dockerfile_bytes))]
fn take_lone(alloc: Global, scan: Scan, text: &str, size: usize) -> Result<Scan, Stop>
    requires size { scan.start + size ≤ most_dockerfile_bytes }
    requires count { scan.progress.place.count ≤ most_dockerfile_bytes }
    requires room { 0 < scan.progress.room }
    ensures ok { IfOk result (λ next. next ≡ record scan {
      progress = record scan.progress { place = place_after scan.progress.place; room = scan.progress.room - 1 };
      start = scan.start + size;
      lines = scan.lines ++ plain_line (scan.progress.place.count + 1) scan.progress.place.escape text.now ∷ [];
    }) }
    ensures err { IfErr result (λ stop. stop ≡ NoMemory) }
{
    let mut scan = scan;
    let place = scan.progress.place;
    let Ok(line) = lone_line(alloc, place, text) else {
        drop(scan);
        return Err(Stop::NoMemory);
    };
    match scan.lines.push(line) {
        Ok(()) => {
            scan.progress.place = place_after(place);
            scan.progress.room -= 1;
            scan.start += size;
            Ok(scan)
        }
        Err(_) => {
            drop(scan);
            Err(Stop::NoMemory)
        }
    }
}

/// Takes the next line of a text, with which `block` ends.
pub fn take_line(
    alloc: Global,
    scan: Scan,
    kept: &[Mark],
    block: &[u8],
    line: &[u8],
) -> Result<Scan, Stop>
    requires cut { (own : List ℕ) × (block.now ≡ own ++ (line.now ++ 10 ∷ [])) × IsWhole own × HasNoLf line.now × IsBehind scan.progress.stage own
        × StageIs (marks_in scan.marks kept.now) scan.progress (after_lines (state_at scan.progress.place scan.progress.room) (block_lines scan.progress.is_first own)) }
    requires utf8 { IsUtf8 block.now }
    requires line { IsUtf8 line.now }
    requires size { scan.start + length block.now ≤ most_dockerfile_bytes }
    requires count { scan.progress.place.count ≤ most_dockerfile_bytes }
    ensures ok { IfOk result (λ next. Settles kept.now scan
        (after_lines (state_at scan.progress.place scan.progress.room) (block_lines scan.progress.is_first block.now)) (length block.now) next) }
    ensures err { IfErr result (λ stop. Stops
        (after_lines (state_at scan.progress.place scan.progress.room) (block_lines scan.progress.is_first block.now)) stop) }
{
    let text = without_carriage_return(text_of(line));
    if let Some(place) = after_dropped(&scan.progress, text) {
        return Ok(moved_over(scan, place, block.len()));
    }
    if let Some(text) = lone_text(&scan.progress, text) {
        return take_lone(alloc, scan, text, block.len());
    }
    match progress_behind(&scan, kept, text) {
        Some(progress) => {
            let mut scan = scan;
            scan.progress = progress;
            Ok(scan)
        }
        None => take_block(alloc, scan, block),
    }
}
