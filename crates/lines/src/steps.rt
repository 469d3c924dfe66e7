ghost use Rattle.std.specs.Prelude.{◌≡◌, ◌++◌, ◌<◌, ◌-◌, ◌^◌, [], ◌∷◌, IfOk};
ghost use Rattle.lines.specs.Marks.{body_line, closes};
ghost use Rattle.lines.specs.PrivateSteps.{initial_state, at_position, with_fault, is_repeated, with_seen, take_value, refuse_repeated, read_directive};
ghost use Rattle.lines.specs.PrivateSteps.{refuse_past_limit, complete_line, open_heredocs, close_line, join_line, close_heredoc, grow_body};
ghost use Rattle.lines.specs.PrivateSteps.{end_continuation, refuse_unclosed, end_file, read_between, read_at_top, read_within, read_body_line, read_line};

use crate::blanks::{after_tabs, continued_part, is_skipped};
use crate::directives::{Directive, directive_of};
use crate::marks::marks_of;
use crate::state::{FileState, Pending, Position, Seen, Unclosed};
use crate::{Escape, Heredoc, Line, Mark};
use ascii::trimmed;
use plain::limits::MOST_LINES;
use plain::{Code, Exact, Items, Memory, Refusal, Text};
use std::alloc::Global;

// A state that isn't handed on is let go by name in some functions: the proof would walk all its parts at each of their ends.

/// The state before the first line.
pub fn initial_state(alloc: Global) -> FileState
    ensures { result ≡ initial_state }
{
    let seen = Seen {
        escape: false,
        syntax: false,
        check: false,
    };
    FileState {
        escape: Escape::Backslash,
        count: 0,
        position: Position::Top(seen),
        room: MOST_LINES,
        lines: Items::new(alloc),
        faults: Items::new(alloc),
    }
}

/// The state where the next line is at another position.
fn at_position(state: FileState, position: Position) -> FileState
    ensures { result ≡ at_position state position }
{
    let mut state = state;
    state.position = position;
    state
}

/// The state with one more fault.
fn with_fault(state: FileState, code: Code, line: u32) -> Result<FileState, Memory>
    ensures { IfOk result (λ r. r ≡ with_fault state code line) }
{
    let mut state = state;
    match state.faults.push(Refusal { code, line }) {
        Ok(()) => Ok(state),
        Err(memory) => {
            drop(state);
            Err(memory)
        }
    }
}

/// Whether a directive's key was there before.
fn is_repeated(seen: Seen, directive: Directive) -> bool
    ensures { result ≡ is_repeated seen directive }
{
    match directive {
        Directive::Escape(_) => seen.escape,
        Directive::Syntax => seen.syntax,
        Directive::Check => seen.check,
    }
}

/// The keys that were there, with a directive's.
fn with_seen(seen: Seen, directive: Directive) -> Seen
    ensures { result ≡ with_seen seen directive }
{
    let mut seen = seen;
    match directive {
        Directive::Escape(_) => seen.escape = true,
        Directive::Syntax => seen.syntax = true,
        Directive::Check => seen.check = true,
    }
    seen
}

/// Sets what a directive sets, or notes its bad value.
fn take_value(state: FileState, directive: Directive) -> Result<FileState, Memory>
    ensures { IfOk result (λ r. r ≡ take_value state directive) }
{
    match directive {
        Directive::Escape(Some(escape)) => {
            let mut state = state;
            state.escape = escape;
            Ok(state)
        }
        Directive::Escape(None) => {
            let line = state.count;
            with_fault(state, Code::R03, line)
        }
        Directive::Syntax | Directive::Check => Ok(state),
    }
}

/// Notes a directive whose key was there before.
fn refuse_repeated(state: FileState, seen: Seen, directive: Directive) -> Result<FileState, Memory>
    ensures { IfOk result (λ r. r ≡ refuse_repeated state seen directive) }
{
    if !is_repeated(seen, directive) {
        return Ok(state);
    }
    let line = state.count;
    with_fault(state, Code::R02, line)
}

/// Reads a directive on the line just counted.
fn read_directive(state: FileState, seen: Seen, directive: Directive) -> Result<FileState, Memory>
    ensures { IfOk result (λ r. r ≡ read_directive state seen directive) }
{
    let state = refuse_repeated(state, seen, directive)?;
    let state = take_value(state, directive)?;
    Ok(at_position(state, Position::Top(with_seen(seen, directive))))
}

/// Notes the first logical line past as many as a file may have.
fn refuse_past_limit(state: FileState, number: u32) -> Result<FileState, Memory>
    ensures { IfOk result (λ r. r ≡ refuse_past_limit state number) }
{
    if state.lines.len() == state.room {
        return with_fault(state, Code::R18, number);
    }
    Ok(state)
}

/// Adds a logical line that is complete.
fn complete_line(
    state: FileState,
    number: u32,
    text: Text,
    heredocs: Items<Heredoc>,
) -> Result<FileState, Memory>
    ensures { IfOk result (λ r. r ≡ complete_line state number text heredocs) }
{
    let mut state = at_position(state, Position::Between);
    let escape = state.escape;
    let line = Line {
        number,
        text,
        heredocs,
        escape,
    };
    match state.lines.push(line) {
        Ok(()) => Ok(state),
        Err(memory) => {
            drop(state);
            Err(memory)
        }
    }
}

/// Begins the heredocs of a logical line whose text is complete, or adds the line where it has no marks.
fn open_heredocs(
    alloc: Global,
    state: FileState,
    number: u32,
    text: Text,
    marks: Items<Mark>,
) -> Result<FileState, Memory>
    ensures { IfOk result (λ r. r ≡ open_heredocs state number text marks) }
{
    match marks.as_slice() {
        [] => complete_line(state, number, text, Items::new(alloc)),
        [first, ..] => match first.copy(alloc) {
            Ok(mark) => {
                let unclosed = Unclosed {
                    number,
                    text,
                    marks,
                    heredocs: Items::new(alloc),
                    mark,
                    body: Text::from_string(String::new(alloc)),
                };
                Ok(at_position(state, Position::Bodies(unclosed)))
            }
            Err(memory) => {
                drop(marks);
                drop(text);
                drop(state);
                Err(memory)
            }
        },
    }
}

/// Ends the lines of a logical line, which join to this text.
fn close_line(alloc: Global, state: FileState, number: u32, text: &str) -> Result<FileState, Memory>
    ensures { IfOk result (λ r. r ≡ close_line state number text.now) }
{
    if text.is_empty() {
        return Ok(at_position(state, Position::Between));
    }
    let state = refuse_past_limit(state, number)?;
    let marks = marks_of(alloc, text)?;
    open_heredocs(alloc, state, number, Text::from_str(alloc, text)?, marks)
}

/// A text with another one at its end.
fn append(alloc: Global, text: Text, more: &str) -> Result<Text, Memory>
    ensures { IfOk result (λ both. both ≡ text ++ more.now) }
{
    let mut text = text.into_string(alloc)?;
    match text.push_str(more) {
        Ok(()) => Ok(Text::from_string(text)),
        Err(_) => {
            drop(text);
            Err(Memory)
        }
    }
}

/// Adds a line to the text of the lines before it in its logical line.
fn join_line(
    alloc: Global,
    state: FileState,
    number: u32,
    before: Text,
    line: &str,
) -> Result<FileState, Memory>
    ensures { IfOk result (λ r. r ≡ join_line state number before line.now) }
{
    match continued_part(state.escape, line) {
        Some(part) => {
            let text = append(alloc, before, part)?;
            Ok(at_position(state, Position::Within(Pending { number, text })))
        }
        None => {
            let text = append(alloc, before, line)?;
            close_line(alloc, state, number, trimmed(text.as_str()))
        }
    }
}

/// What a line adds to the body of a heredoc of this mark.
fn body_line<'a>(mark: &Mark, line: &'a str) -> &'a str
    ensures { result.now ≡ body_line mark.now line.now }
{
    if mark.strips { after_tabs(line) } else { line }
}

/// Whether a line closes the heredoc of this mark.
pub fn closes(mark: &Mark, line: &str) -> bool
    ensures { result ≡ closes mark.now line.now }
{
    body_line(mark, line) == mark.name.as_str()
}

/// The heredocs, and one more.
fn with_heredoc(heredocs: Items<Heredoc>, heredoc: Heredoc) -> Result<Items<Heredoc>, Memory>
    ensures { IfOk result (λ all. all ≡ heredocs ++ heredoc ∷ []) }
{
    let mut heredocs = heredocs;
    match heredocs.push(heredoc) {
        Ok(()) => Ok(heredocs),
        Err(memory) => {
            drop(heredocs);
            Err(memory)
        }
    }
}

/// Closes the heredoc that was read, and begins the next one or adds the logical line.
fn close_heredoc(alloc: Global, state: FileState, unclosed: Unclosed) -> Result<FileState, Memory>
    ensures { IfOk result (λ r. r ≡ close_heredoc state unclosed) }
{
    let Unclosed {
        number,
        text,
        marks,
        heredocs,
        mark,
        body,
    } = unclosed;
    let heredocs = match with_heredoc(heredocs, Heredoc { mark, body }) {
        Ok(heredocs) => heredocs,
        Err(memory) => {
            drop(marks);
            drop(text);
            drop(state);
            return Err(memory);
        }
    };
    match marks.as_slice().get(heredocs.len()) {
        None => complete_line(state, number, text, heredocs),
        Some(next) => match next.copy(alloc) {
            Ok(mark) => {
                let unclosed = Unclosed {
                    number,
                    text,
                    marks,
                    heredocs,
                    mark,
                    body: Text::from_string(String::new(alloc)),
                };
                Ok(at_position(state, Position::Bodies(unclosed)))
            }
            Err(memory) => {
                drop(heredocs);
                drop(marks);
                drop(text);
                drop(state);
                Err(memory)
            }
        },
    }
}

/// A text with a line and its LF at its end.
fn append_line(alloc: Global, text: Text, line: &str) -> Result<Text, Memory>
    ensures { IfOk result (λ both. both ≡ text ++ (line.now ++ 10 ∷ [])) }
{
    let text = append(alloc, text, line)?;
    append(alloc, text, "\n")
}

/// Adds a line with its LF to the body of the heredoc that is read.
fn grow_body(
    alloc: Global,
    state: FileState,
    unclosed: Unclosed,
    line: &str,
) -> Result<FileState, Memory>
    ensures { IfOk result (λ r. r ≡ grow_body state unclosed line.now) }
{
    let Unclosed {
        number,
        text,
        marks,
        heredocs,
        mark,
        body,
    } = unclosed;
    match append_line(alloc, body, line) {
        Ok(body) => {
            let unclosed = Unclosed {
                number,
                text,
                marks,
                heredocs,
                mark,
                body,
            };
            Ok(at_position(state, Position::Bodies(unclosed)))
        }
        Err(memory) => {
            drop(text);
            drop(marks);
            drop(heredocs);
            drop(mark);
            drop(state);
            Err(memory)
        }
    }
}

/// Reads a line between logical lines.
fn read_between(alloc: Global, state: FileState, line: &str) -> Result<FileState, Memory>
    ensures { IfOk result (λ r. r ≡ read_between state line.now) }
{
    if is_skipped(line) {
        return Ok(at_position(state, Position::Between));
    }
    let number = state.count;
    let empty = Text::from_string(String::new(alloc));
    join_line(alloc, state, number, empty, line)
}

/// Reads a line at the top, above which there are directives alone.
fn read_at_top(alloc: Global, state: FileState, seen: Seen, line: &str) -> Result<FileState, Memory>
    ensures { IfOk result (λ r. r ≡ read_at_top state seen line.now) }
{
    match directive_of(line) {
        Some(directive) => read_directive(state, seen, directive),
        None => read_between(alloc, state, line),
    }
}

/// Reads a line inside a logical line that is continued.
fn read_within(
    alloc: Global,
    state: FileState,
    pending: Pending,
    line: &str,
) -> Result<FileState, Memory>
    ensures { IfOk result (λ r. r ≡ read_within state pending line.now) }
{
    if is_skipped(line) {
        return Ok(at_position(state, Position::Within(pending)));
    }
    let Pending { number, text } = pending;
    join_line(alloc, state, number, text, line)
}

/// Reads a line in the heredocs of a logical line.
fn read_body_line(
    alloc: Global,
    state: FileState,
    unclosed: Unclosed,
    line: &str,
) -> Result<FileState, Memory>
    ensures { IfOk result (λ r. r ≡ read_body_line state unclosed line.now) }
{
    if closes(&unclosed.mark, line) {
        return close_heredoc(alloc, state, unclosed);
    }
    let kept = body_line(&unclosed.mark, line);
    grow_body(alloc, state, unclosed, kept)
}

/// Reads the next line of the file.
#[tactic(auto, unfolding(crate::specs::PrivateSteps::read_line))]
pub fn read_line(alloc: Global, state: FileState, line: &str) -> Result<FileState, Memory>
    requires { state.count < 2 ^ 32 - 1 }
    ensures { IfOk result (λ r. r ≡ read_line state line.now) }
{
    let FileState {
        escape,
        count,
        position,
        room,
        lines,
        faults,
    } = state;
    let count_line = FileState {
        escape,
        count: count + 1,
        position: Position::Between,
        room,
        lines,
        faults,
    };
    match position {
        Position::Top(seen) => read_at_top(alloc, count_line, seen, line),
        Position::Between => read_between(alloc, count_line, line),
        Position::Within(pending) => read_within(alloc, count_line, pending, line),
        Position::Bodies(unclosed) => read_body_line(alloc, count_line, unclosed, line),
    }
}

/// The state at the end of the text.
pub fn end_file(alloc: Global, state: FileState) -> Result<FileState, Memory>
    ensures { IfOk result (λ r. r ≡ end_file state) }
{
    let state = end_continuation(alloc, state)?;
    refuse_unclosed(state)
}

/// Ends a continuation where the text ends.
fn end_continuation(alloc: Global, state: FileState) -> Result<FileState, Memory>
    ensures { IfOk result (λ r. r ≡ end_continuation state state.position) }
{
    if let Position::Within(pending) = &state.position {
        let number = pending.number;
        return match Text::from_str(alloc, trimmed(pending.text.as_str())) {
            Ok(text) => close_line(alloc, state, number, text.as_str()),
            Err(memory) => {
                drop(state);
                Err(memory)
            }
        };
    }
    Ok(state)
}

/// Notes a heredoc that the end of the text leaves unclosed.
fn refuse_unclosed(state: FileState) -> Result<FileState, Memory>
    ensures { IfOk result (λ r. r ≡ refuse_unclosed state state.position) }
{
    if let Position::Bodies(unclosed) = &state.position {
        let number = unclosed.number;
        return with_fault(state, Code::R08, number);
    }
    Ok(state)
}
