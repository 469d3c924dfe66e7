ghost use Rattle.std.specs.Prelude.{◌≡◌, ◌==◌, length, IfOk};
ghost use Rattle.std.specs.List.{list_any};
ghost use Rattle.words.specs.Form.{json_form};
ghost use Rattle.instructions.specs.Least.{Meets};
ghost use Rattle.instructions.specs.Run.{run_command, is_wordless, is_mark_beside, names_interpreter, run_read, run_due};

use crate::command::command_of;
use crate::{Command, InstructionKind};
use ascii::first_piece;
use lines::Heredoc;
use options::{are_mount_flags, mounts};
use plain::limits::MOST_MOUNTS;
use plain::{Code, Exact, Fault, Memory};
use std::alloc::Global;
use words::{TextFault, flags, json_form};

/// The command: the body of the heredoc, else what the rest of the line is.
fn run_command(alloc: Global, heredocs: &[Heredoc], rest: &str) -> Result<Command, Memory>
    ensures { IfOk result (λ command. command ≡ run_command heredocs.now rest.now) }
{
    match heredocs {
        [] => command_of(alloc, rest),
        [heredoc, ..] => Ok(Command::Shell(heredoc.body.copy(alloc)?)),
    }
}

/// Whether a text is a list in JSON without a word.
fn is_wordless(alloc: Global, text: &str) -> Result<bool, Memory>
    ensures { IfOk result (λ wordless. wordless ≡ is_wordless (json_form text.now)) }
{
    match json_form(alloc, text)? {
        Some(words) => Ok(words.is_empty()),
        None => Ok(false),
    }
}

/// Whether one of the bodies is empty.
fn has_empty_body(heredocs: &[Heredoc]) -> bool
    ensures { result ≡ list_any (λ h. length h.body == 0) heredocs.now }
{
    for heredoc in heredocs {
        if heredoc.body.len() == 0 {
            return true;
        }
    }
    false
}

/// Whether a mark stands beside another one or other pieces.
fn is_mark_beside(heredocs: &[Heredoc], rest: &str) -> bool
    ensures { result ≡ is_mark_beside heredocs.now rest.now }
{
    match heredocs {
        [] => false,
        [_] => !first_piece(rest).1.is_empty(),
        [_, _, ..] => true,
    }
}

/// Whether a body names its interpreter, as a first line `#!/bin/sh` does.
fn names_interpreter(body: &[u8]) -> bool
    ensures { result ≡ names_interpreter body.now }
{
    matches!(body, [b'#', b'!', ..])
}

/// Whether one of the bodies names its interpreter.
fn has_interpreter(heredocs: &[Heredoc]) -> bool
    ensures { result ≡ list_any (λ h. names_interpreter h.body) heredocs.now }
{
    for heredoc in heredocs {
        if names_interpreter(heredoc.body.as_str().as_bytes()) {
            return true;
        }
    }
    false
}

/// RUN: mounts, then one heredoc's mark, or a list in JSON, or a text for the shell.
pub(crate) fn read_run(
    alloc: Global,
    heredocs: &[Heredoc],
    text: &str,
) -> Result<InstructionKind, TextFault>
    ensures { Meets (run_read heredocs.now text.now) (run_due heredocs.now text.now) result }
{
    let (flags, rest) = flags(alloc, text)?;
    if rest.is_empty() || is_wordless(alloc, rest)? || has_empty_body(heredocs) {
        return Err(Fault::Because(Code::R06));
    }
    if !are_mount_flags(flags.as_slice()) {
        return Err(Fault::Because(Code::R07));
    }
    if is_mark_beside(heredocs, rest) || has_interpreter(heredocs) {
        return Err(Fault::Because(Code::R08));
    }
    let Some(mounts) = mounts(alloc, flags.as_slice())? else {
        return Err(Fault::Because(Code::R17));
    };
    if flags.len() > MOST_MOUNTS {
        return Err(Fault::Because(Code::R18));
    }
    let command = run_command(alloc, heredocs, rest)?;
    Ok(InstructionKind::Run { mounts, command })
}
