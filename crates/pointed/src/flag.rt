ghost use Rattle.std.specs.Prelude.{◌≡◌, not, is_some, IfOk};
ghost use Rattle.options.specs.Copy.{copy_flags};
ghost use Rattle.options.specs.Mount.{mounts};
ghost use Rattle.pointed.specs.Flag.{is_unknown, is_about, first_flag, is_followed, only_flag, run_flag, flag_number};

use crate::spot::is_whole;
use ascii::first_piece;
use options::{are_copy_flags, are_mount_flags, copy_flags, has_from, mounts};
use plain::{Code, Memory};
use sentences::Subject;
use std::alloc::Global;
use words::{Flag, flags};

/// Whether an instruction doesn't take the last of the flags that are begun, which is also given alone.
fn is_unknown(subject: Subject, begun: &[Flag], alone: &[Flag]) -> bool
    ensures { result ≡ is_unknown subject begun.now alone.now }
{
    match subject {
        Subject::Copy => !are_copy_flags(begun),
        Subject::Run => !are_mount_flags(alone),
        _ => true,
    }
}

/// Whether the owner or the mode of a flag is none.
fn is_no_number(alloc: Global, alone: &[Flag]) -> Result<bool, Memory>
    ensures { IfOk result (λ is. is ≡ not (is_some (copy_flags alone.now))) }
{
    let said = copy_flags(alloc, alone)?;
    Ok(said.is_none())
}

/// Whether a flag is no mount.
fn is_no_mount(alloc: Global, alone: &[Flag]) -> Result<bool, Memory>
    ensures { IfOk result (λ is. is ≡ not (is_some (mounts alone.now))) }
{
    let found = mounts(alloc, alone)?;
    Ok(found.is_none())
}

/// Whether a code is about the last of the flags that are begun, which is also given alone.
fn is_about(
    alloc: Global,
    code: Code,
    subject: Subject,
    begun: &[Flag],
    alone: &[Flag],
) -> Result<bool, Memory>
    ensures { IfOk result (λ is. is ≡ is_about code subject begun.now alone.now) }
{
    match code {
        Code::R07 => Ok(is_unknown(subject, begun, alone)),
        Code::R12 => Ok(has_from(alone)),
        Code::R16 => is_no_number(alloc, alone),
        Code::R17 => is_no_mount(alloc, alone),
        _ => Ok(false),
    }
}

/// The number of the first flag that a code is about.
fn first_flag(
    alloc: Global,
    code: Code,
    subject: Subject,
    flags: &[Flag],
) -> Result<Option<usize>, Memory>
    ensures { IfOk result (λ number. number ≡ first_flag code subject flags.now) }
{
    // A COPY takes four flags at most, so no more than five are begun; those of a RUN are looked at one by one.
    for at in 0..flags.len() {
        let about = is_about(alloc, code, subject, &flags[..at + 1], &flags[at..at + 1])?;
        if about {
            return Ok(Some(at));
        }
    }
    Ok(None)
}

/// Whether a word follows the flags on their line.
fn is_followed(rest: &str) -> bool
    ensures { result ≡ is_followed rest.now }
{
    let (word, _) = first_piece(rest);
    !word.is_empty() && is_whole(word)
}

/// The number of a flag that is the only one, if a word follows it.
fn only_flag(flags: &[Flag], rest: &str) -> Option<usize>
    ensures { result ≡ only_flag flags.now rest.now }
{
    match flags {
        [_] if is_followed(rest) => Some(0),
        _ => None,
    }
}

/// The number of the flag of a RUN that a code is about.
fn run_flag(alloc: Global, code: Code, flags: &[Flag], rest: &str) -> Result<Option<usize>, Memory>
    ensures { IfOk result (λ number. number ≡ run_flag code flags.now rest.now) }
{
    match code {
        Code::R12 => Ok(only_flag(flags, rest)),
        _ => first_flag(alloc, code, Subject::Run, flags),
    }
}

/// The number of the flag that a code is about, of those after the name of a line's instruction.
#[tactic(auto, unfolding(crate::specs::Flag::flag_number))]
pub(crate) fn flag_number(
    alloc: Global,
    code: Code,
    subject: Subject,
    text: &str,
) -> Result<Option<usize>, Memory>
    ensures { IfOk result (λ number. number ≡ flag_number code subject text.now) }
{
    let (flags, rest) = flags(alloc, text)?;
    match subject {
        Subject::Run => run_flag(alloc, code, flags.as_slice(), rest),
        _ => first_flag(alloc, code, subject, flags.as_slice()),
    }
}
