// An instruction that failed, with its lines.
ghost use Rattle.std.specs.Prelude.{◌≡◌, map, IfOk};
ghost use Rattle.std.specs.Str.Lossy.{utf8_lossy};
ghost use Rattle.lines.specs.Text.{text_lines};
ghost use Rattle.meant.specs.Own.{own_of};
ghost use Rattle.trees.specs.Cause.{cause_text};
ghost use Rattle.checks.specs.Failing.{shown_cause, shown_failure, shown_left_out, shown_missing};
ghost use Rattle.checks.specs.Shown.{readable_lines};

use crate::layout::shown_plain;
use crate::showing::lines_of;
use meant::{has_bind, own_of};
use plain::{Memory, Text};
use sentences::{Message, cause_message, left_out_message, missing_message};
use std::alloc::Global;
use trees::Cause;

/// What is shown of an instruction of these lines that failed with this cause, with what is said of it.
fn shown_cause(
    alloc: Global,
    file: &str,
    number: u32,
    cause: Cause,
    own: &[&str],
    message: &Message,
) -> Result<Text, Memory>
    ensures { IfOk result (λ shown. shown ≡ shown_cause file.now number cause (map (λ line. line.now) own.now) message.now) }
{
    let name = cause.to_string(alloc)?;
    let shown = shown_plain(alloc, file, name.as_str(), number, own, message, None)?;
    Ok(Text::from_string(shown))
}

/// The same of an instruction of this Dockerfile, by the number of the line on which it begins.
fn shown_at(
    alloc: Global,
    file: &str,
    text: &[u8],
    number: u32,
    cause: Cause,
    message: &Message,
) -> Result<Text, Memory>
    ensures { IfOk result (λ shown. shown ≡ shown_cause file.now number cause (own_of (readable_lines text.now) number) message.now) }
{
    let readable = String::from_utf8_lossy(alloc, text)?;
    let lines = lines_of(alloc, readable.as_str())?;
    let own = own_of(alloc, lines.as_slice(), number)?;
    shown_cause(alloc, file, number, cause, own.as_slice(), message)
}

/// What is shown to a person of an instruction of this Dockerfile, which is the file of this name, that failed with this cause, by the number of the line on
/// which it begins. The text need not be UTF-8, and characters that can't be seen are shown by their numbers, as `shown_faults` shows them. Of a number that the text hasn't no
/// line is shown.
pub fn shown_failure(
    alloc: Global,
    file: &str,
    text: &[u8],
    number: u32,
    cause: Cause,
) -> Result<Text, Memory>
    ensures { IfOk result (λ shown. shown ≡ shown_failure file.now (readable_lines text.now) number cause) }
{
    let readable = String::from_utf8_lossy(alloc, text)?;
    let lines = lines_of(alloc, readable.as_str())?;
    let own = own_of(alloc, lines.as_slice(), number)?;
    let binds = has_bind(alloc, own.as_slice())?;
    let message = cause_message(alloc, cause, binds)?;
    shown_cause(alloc, file, number, cause, own.as_slice(), &message)
}

/// What is shown to a person of a COPY of this Dockerfile that misses a source, as `shown_failure` shows it, with the source's text. What isn't UTF-8
/// and characters that can't be seen are shown there as in a line.
pub fn shown_missing(
    alloc: Global,
    file: &str,
    text: &[u8],
    number: u32,
    source: &str,
) -> Result<Text, Memory>
    ensures { IfOk result (λ shown. shown ≡ shown_missing file.now (readable_lines text.now) number source.now) }
{
    let message = missing_message(alloc, source)?;
    shown_at(alloc, file, text, number, Cause::F1, &message)
}

/// The same of a source that the ignore file leaves out, by the number and the text of the line that does.
pub fn shown_left_out(
    alloc: Global,
    file: &str,
    text: &[u8],
    number: u32,
    source: &str,
    ignoring: usize,
    ignored: &[u8],
) -> Result<Text, Memory>
    ensures { IfOk result (λ shown. shown ≡ shown_left_out file.now (readable_lines text.now) number source.now ignoring ignored.now) }
{
    let ignored = String::from_utf8_lossy(alloc, ignored)?;
    let message = left_out_message(alloc, source, ignoring, ignored.as_str())?;
    shown_at(alloc, file, text, number, Cause::F1, &message)
}
