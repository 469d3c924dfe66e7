// An instruction that failed, and why.
ghost use Rattle.std.specs.Prelude.{◌≡◌, IfOk};
ghost use Rattle.std.specs.String.{string_bytes};
ghost use Rattle.sentences.specs.Failing.{cause_sentence, cause_remedy, file_remedy, status_remedy, cause_message, missing_sentence, missing_message, left_out_remedy, left_out_message};

use crate::Message;
use plain::{Memory, Text};
use std::alloc::{AllocError, Global};
use trees::Cause;

/// The status of a command that isn't known to what runs it.
const UNKNOWN_COMMAND: u8 = 127;

/// Why an instruction failed, in one sentence.
fn cause_sentence(alloc: Global, cause: Cause) -> Result<String, AllocError>
    ensures { IfOk result (λ text. string_bytes text ≡ cause_sentence cause) }
{
    match cause {
        Cause::F1 => String::from_str(alloc, "a source isn't there"),
        Cause::F2 => String::from_str(alloc, "a file stands where a directory is needed"),
        Cause::F3 => String::from_str(
            alloc,
            "two entries are placed onto one path, and they aren't both directories",
        ),
        Cause::F4 => String::from_str(alloc, "a directory stands where a file is needed"),
        Cause::F5 => String::from_str(alloc, "a path would have more than 64 components"),
        Cause::Exit(status) => format!(in alloc; "the command ended with status {status}"),
    }
}

/// What helps against a status of a command.
fn status_remedy(status: u8) -> &'static str
    ensures { result.now ≡ status_remedy status }
{
    if status == UNKNOWN_COMMAND {
        "dfsolve runs seven commands of its own in place of real ones; make real builds by dfsolve llb (see docs/BUILDKIT.md)"
    } else {
        "see the command"
    }
}

/// What helps against F2, where an instruction that binds folders has it or another one.
fn file_remedy(binds: bool) -> &'static str
    ensures { result.now ≡ file_remedy binds }
{
    if binds {
        "a bind takes a folder here: bind the folder that has the file, or COPY the file"
    } else {
        "remove the file, or choose another path"
    }
}

/// What helps against a cause, where an instruction that binds folders has it or another one.
fn cause_remedy(cause: Cause, binds: bool) -> &'static str
    ensures { result.now ≡ cause_remedy cause binds }
{
    match cause {
        Cause::F1 => "name a file that the context, the stage or the image has",
        Cause::F2 => file_remedy(binds),
        Cause::F3 => "end the destination in /",
        Cause::F4 => "choose another name",
        Cause::F5 => "copy it nearer to the root",
        Cause::Exit(status) => status_remedy(status),
    }
}

/// What is said of an instruction that failed with this cause, and that binds folders or doesn't.
pub fn cause_message(alloc: Global, cause: Cause, binds: bool) -> Result<Message, Memory>
    ensures { IfOk result (λ message. message ≡ cause_message cause binds) }
{
    let wrong = cause_sentence(alloc, cause)?;
    let helps = Text::from_str(alloc, cause_remedy(cause, binds))?;
    Ok(Message {
        wrong: Text::from_string(wrong),
        helps,
    })
}

/// Why a COPY failed that misses this source.
fn missing_sentence(alloc: Global, source: &str) -> Result<String, Memory>
    ensures { IfOk result (λ text. string_bytes text ≡ missing_sentence source.now) }
{
    let wrong = cause_sentence(alloc, Cause::F1)?;
    Ok(format!(in alloc; "{wrong}: {source}")?)
}

/// What is said of a COPY that misses this source.
pub fn missing_message(alloc: Global, source: &str) -> Result<Message, Memory>
    ensures { IfOk result (λ message. message ≡ missing_message source.now) }
{
    let wrong = missing_sentence(alloc, source)?;
    let helps = Text::from_str(alloc, cause_remedy(Cause::F1, false))?;
    Ok(Message {
        wrong: Text::from_string(wrong),
        helps,
    })
}

/// What helps against a line of the ignore file that leaves a source out.
fn left_out_remedy(alloc: Global, number: usize, text: &str) -> Result<String, Memory>
    ensures { IfOk result (λ helps. string_bytes helps ≡ left_out_remedy number text.now) }
{
    Ok(format!(in alloc; ".dockerignore:{number} leaves it out: {text}")?)
}

/// The same of a source that the ignore file leaves out: what helps is the number and the text of the line that does.
pub fn left_out_message(
    alloc: Global,
    source: &str,
    number: usize,
    text: &str,
) -> Result<Message, Memory>
    ensures { IfOk result (λ message. message ≡ left_out_message source.now number text.now) }
{
    let wrong = missing_sentence(alloc, source)?;
    let helps = left_out_remedy(alloc, number, text)?;
    Ok(Message {
        wrong: Text::from_string(wrong),
        helps: Text::from_string(helps),
    })
}
