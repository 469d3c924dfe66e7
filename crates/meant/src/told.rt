// What is said of a refusal, by the lines of its file.
ghost use Rattle.std.specs.Prelude.{◌≡◌, map, IfOk};
ghost use Rattle.std.specs.Option.{option_copied};
ghost use Rattle.meant.specs.WordFaults.{line_fault};
ghost use Rattle.meant.specs.Told.{first_line, flag_told, mounts_told, word_told, told, told_by, message_by};

use crate::first_word::word_message;
use crate::flags::{copy_flag, run_flag};
use crate::mount_texts::mount_message;
use crate::named::{source_message, target_message};
use crate::own::{escape_in, joined};
use crate::word_faults::line_fault;
use expand::Reason;
use plain::{Code, Memory, Text};
use sentences::{Message, Subject, message_of, word_message as faulty_message};
use std::alloc::Global;

/// The first of some lines; the empty one if there is none.
fn first_line<'a>(own: &[&'a str]) -> &'a str
    ensures { result.now ≡ first_line (map (λ line. line.now) own.now) }
{
    match own {
        [line, ..] => line,
        [] => "",
    }
}

/// What is said of the flag that an instruction doesn't take, if it is known.
fn flag_told(alloc: Global, subject: Subject, flag: Option<&str>) -> Result<Option<Message>, Memory>
    ensures { IfOk result (λ message. message ≡ flag_told subject (option_copied flag.entry)) }
{
    let Some(flag) = flag else {
        return Ok(None);
    };
    match subject {
        Subject::Copy => Ok(Some(copy_flag(alloc, flag)?)),
        Subject::Run => Ok(Some(run_flag(alloc, flag)?)),
        _ => Ok(None),
    }
}

/// What is said of the mounts of a RUN of these lines.
fn mounts_told(alloc: Global, lines: &[&str], own: &[&str]) -> Result<Message, Memory>
    ensures { IfOk result (λ message. message ≡ mounts_told (map (λ line. line.now) lines.now) (map (λ line. line.now) own.now)) }
{
    let text = joined(alloc, escape_in(lines), own)?;
    mount_message(alloc, text.as_str())
}

/// What is said of the word by which an instruction is refused with this code, if the lines tell it.
fn word_told(
    alloc: Global,
    lines: &[&str],
    own: &[&str],
    code: Code,
    number: u32,
) -> Result<Option<Message>, Memory>
    ensures { IfOk result (λ message. message ≡ word_told (line_fault (map (λ line. line.now) lines.now) (map (λ line. line.now) own.now) code number)) }
{
    match line_fault(alloc, lines, own, code, number)? {
        Some(found) => {
            let message = faulty_message(alloc, found.cause, found.word.as_str());
            drop(found);
            Ok(Some(message?))
        }
        None => Ok(None),
    }
}

/// What is said of a refusal by this code beyond what the table says, if there is more to say.
fn told(
    alloc: Global,
    target: Option<&Text>,
    images: &[Text],
    base: Option<&str>,
    lines: &[&str],
    own: &[&str],
    code: Code,
    number: u32,
    word: Option<&str>,
) -> Result<Option<Message>, Memory>
    ensures { IfOk result (λ message. message ≡ told (option_copied target.entry) images.now (option_copied base.entry) (map (λ line. line.now) lines.now) (map (λ line. line.now) own.now) code number (option_copied word.entry)) }
{
    let line = first_line(own);
    match code {
        Code::R04 => word_message(alloc, Subject::of_line(line), line),
        Code::R07 => flag_told(alloc, Subject::of_line(line), word),
        Code::R12 => source_message(alloc, images, base, lines, number, line),
        Code::R13 => target_message(alloc, target, lines),
        Code::R17 => Ok(Some(mounts_told(alloc, lines, own)?)),
        Code::R06 | Code::R08 | Code::R09 | Code::R10 | Code::R15 => word_told(
            alloc, lines, own, code, number,
        ),
        _ => Ok(None),
    }
}

/// The same for a reason.
fn told_by(
    alloc: Global,
    target: Option<&Text>,
    images: &[Text],
    base: Option<&str>,
    lines: &[&str],
    own: &[&str],
    reason: &Reason,
    number: u32,
    word: Option<&str>,
) -> Result<Option<Message>, Memory>
    ensures { IfOk result (λ message. message ≡ told_by (option_copied target.entry) images.now (option_copied base.entry) (map (λ line. line.now) lines.now) (map (λ line. line.now) own.now) reason.now number (option_copied word.entry)) }
{
    match reason {
        Reason::Coded(code) => told(alloc, target, images, base, lines, own, *code, number, word),
        Reason::Required(_) => Ok(None),
    }
}

/// What is said of a refusal for this reason in a build of this target with these images, in a file of these lines.
///
/// It is of the instruction of the lines `own`, of which the first has this number, and is about this word of it, if that is known. If it asks for an image
/// that there isn't, and its name is known as its variables have it, that is `base`. What more there is to say than the table says, which has a sentence for each code
/// and each instruction, is said: which name was asked for, which one may have been meant, and which of several causes it is.
pub fn message_by(
    alloc: Global,
    target: Option<&Text>,
    images: &[Text],
    base: Option<&str>,
    lines: &[&str],
    own: &[&str],
    reason: &Reason,
    number: u32,
    word: Option<&str>,
) -> Result<Message, Memory>
    ensures { IfOk result (λ message. message ≡ message_by (option_copied target.entry) images.now (option_copied base.entry) (map (λ line. line.now) lines.now) (map (λ line. line.now) own.now) reason.now number (option_copied word.entry)) }
{
    match told_by(
        alloc, target, images, base, lines, own, reason, number, word,
    )? {
        Some(message) => Ok(message),
        None => message_of(alloc, reason, Subject::of_line(first_line(own))),
    }
}
