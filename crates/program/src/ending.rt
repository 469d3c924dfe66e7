// How a call on a bundle ends for who called the program: what is said of it, and the exit status.
ghost use Rattle.std.specs.Prelude.{◌≡◌, ◌<◌, ◌++◌, ℕ, List, Err, IfOk};
ghost use Rattle.counted.specs.Edges.{line_of};
ghost use Rattle.answering.specs.Faults.{exit_status};
ghost use Rattle.program.specs.Faults.{fault_text};
ghost use Rattle.program.specs.declared.fault.TellFault.TheVariants.{Device};
ghost use Rattle.program.specs.Runs.{IsTold, SaysAfterNotes, SaysEnd, SaysFileEnd, SaysNamed, SaysPack, end_text};
ghost use Rattle.program.specs.Saying.{stream};

use crate::fault::TellFault;
use crate::saying::{NO_MEMORY_LINE, say, say_because};
use build::{Status, status_code};
use counted::CountedWrite;
use packing::PackFault;
use plain::Text;
use std::alloc::{AllocError, Global};

/// Says why there is no whole answer, where there is none, and gives the status to end with.
pub(crate) fn finish<S: CountedWrite>(errors: &mut S, ended: Result<Status, TellFault>) -> u8
    requires says { S.failures errors.old < u64.MAX }
    ensures says { SaysEnd ended (stream (S.contents errors.old) (S.failures errors.old)) (stream (S.contents errors.new) (S.failures errors.new)) }
    ensures is { result ≡ exit_status ended }
{
    if let Err(fault) = &ended {
        say(errors, fault_line(*fault));
    }
    status_code(ended)
}

/// Says that a device failed: the system gave no keys of a hash, so nothing was read. Gives the status to end with.
pub fn end_without_keys<S: CountedWrite>(errors: &mut S) -> u8
    requires says { S.failures errors.old < u64.MAX }
    ensures says { SaysEnd (Err Device) (stream (S.contents errors.old) (S.failures errors.old)) (stream (S.contents errors.new) (S.failures errors.new)) }
    ensures is { result ≡ 3 }
{
    finish(errors, Err(TellFault::Device))
}

/// The same for the bundle of a file: a failed device is said with what is known of the file, which follows its name.
pub(crate) fn finish_file<S: CountedWrite>(
    alloc: Global,
    errors: &mut S,
    ended: Result<Status, TellFault>,
    name: &str,
    why: &str,
) -> u8
    requires says { S.failures errors.old < u64.MAX }
    ensures says { SaysFileEnd name.now ended (stream (S.contents errors.old) (S.failures errors.old)) (stream (S.contents errors.new) (S.failures errors.new)) }
    ensures is { result ≡ exit_status ended }
{
    match &ended {
        Err(TellFault::Device) => {
            say_named(alloc, errors, name, why);
            status_code(ended)
        }
        _ => finish(errors, ended),
    }
}

/// The same for the bundle of a folder: what was passed over in the folder is said before it, if there is memory to say both.
pub(crate) fn finish_folder<S: CountedWrite>(
    alloc: Global,
    errors: &mut S,
    ended: Result<Status, TellFault>,
    notes: &str,
) -> u8
    requires says { S.failures errors.old < u64.MAX }
    ensures says { SaysAfterNotes (end_text ended) (stream (S.contents errors.old) (S.failures errors.old)) (stream (S.contents errors.new) (S.failures errors.new)) }
    ensures is { result ≡ exit_status ended }
{
    say_after(alloc, errors, notes, end_line(&ended));
    status_code(ended)
}

/// Why there is no whole answer, as a line; nothing where there is one.
fn end_line(ended: &Result<Status, TellFault>) -> &'static str
    ensures { result.now ≡ end_text ended.now }
{
    match ended {
        Ok(_) => "",
        Err(fault) => fault_line(*fault),
    }
}

/// Says a line after some notes, if there is memory to say both.
fn say_after<S: CountedWrite>(alloc: Global, errors: &mut S, notes: &str, line: &str)
    requires says { S.failures errors.old < u64.MAX }
    ensures { SaysAfterNotes line.now (stream (S.contents errors.old) (S.failures errors.old)) (stream (S.contents errors.new) (S.failures errors.new)) }
{
    match joined(alloc, notes, line) {
        Ok(text) => say(errors, text.as_str()),
        Err(AllocError) => say(errors, line),
    }
}

/// A text and another one behind it.
fn joined(alloc: Global, first: &str, second: &str) -> Result<Text, AllocError>
    ensures { IfOk result (λ text. text ≡ first.now ++ second.now) }
{
    let mut text = String::from_str(alloc, first)?;
    text.push_str(second)?;
    Ok(Text::from_string(text))
}

/// Says that a device failed, and what is known of the file of this name, if there is memory to say it.
fn say_named<S: CountedWrite>(alloc: Global, errors: &mut S, name: &str, why: &str)
    requires says { S.failures errors.old < u64.MAX }
    ensures { SaysNamed name.now (stream (S.contents errors.old) (S.failures errors.old)) (stream (S.contents errors.new) (S.failures errors.new)) }
{
    match named_line(alloc, name, why) {
        Ok(line) => say(errors, line.as_str()),
        Err(_) => say(errors, fault_line(TellFault::Device)),
    }
}

/// That a device failed, and what is known of the file of this name, as a line.
fn named_line(alloc: Global, name: &str, why: &str) -> Result<Text, AllocError>
    ensures { IfOk result (λ line. (told : List ℕ) × (IsTold name.now told × (line ≡ line_of (fault_text Device ++ told)))) }
{
    let mut line = String::from_str(alloc, "device failed")?;
    if !why.is_empty() {
        line.push_str(": ")?;
        line.push_str(name)?;
        line.push_str(" ")?;
        line.push_str(why)?;
    }
    line.push('\n')?;
    Ok(Text::from_string(line))
}

/// Why a build wrote no whole answer, as a line.
fn fault_line(fault: TellFault) -> &'static str
    ensures { result.now ≡ line_of (fault_text fault) }
{
    match fault {
        TellFault::Memory => NO_MEMORY_LINE,
        TellFault::Device => "device failed\n",
        TellFault::Clash => "address clash\n",
        TellFault::Unspeakable => "a path that the ignore file leaves out isn't printable ASCII\n",
    }
}

/// Says why there is no whole bundle, where there is none, and gives the status to end with. `why` names what can't be packed, or the file that can't
/// be written, with what helps.
pub(crate) fn finish_pack<S: CountedWrite>(
    alloc: Global,
    errors: &mut S,
    ended: Result<Status, PackFault>,
    why: &str,
) -> u8
    requires says { S.failures errors.old < u64.MAX }
    ensures says { SaysPack ended (stream (S.contents errors.old) (S.failures errors.old)) (stream (S.contents errors.new) (S.failures errors.new)) }
    ensures is { result ≡ exit_status ended }
{
    match &ended {
        Ok(Status::Built) => status_code(ended),
        Ok(Status::Failed) => status_code(ended),
        Ok(Status::Refused) => {
            say_because(alloc, errors, "no Dockerfile", "no Dockerfile\n", why);
            status_code(ended)
        }
        Err(PackFault::Memory) => {
            say(errors, NO_MEMORY_LINE);
            status_code(ended)
        }
        Err(PackFault::Device) => {
            say_because(alloc, errors, "device failed", "device failed\n", why);
            status_code(ended)
        }
        Err(PackFault::Ended) => {
            say_because(alloc, errors, "cannot pack", "cannot pack\n", why);
            status_code(ended)
        }
    }
}
