ghost use Rattle.std.specs.Prelude.{◌≡◌, option_map};
ghost use Rattle.instructions.specs.Least.{Meets};
ghost use Rattle.instructions.specs.OneWord.{only_text, one_word_read, one_word_due};
ghost use Rattle.instructions.specs.PrivateLent.{lent_texts};

use crate::InstructionKind;
use expand::{Kind, Word};
use lines::Escape;
use plain::{Code, Fault};
use std::alloc::Global;
use words::{TextFault, closed, split};

/// The text of which there is just one.
fn only_text<'a>(texts: &'a [&'a str]) -> Option<&'a str>
    ensures { option_map (λ text. text.now) result ≡ only_text (lent_texts texts.now) }
{
    match texts {
        [text] => Some(text),
        _ => None,
    }
}

/// The argument of an instruction that has just one word.
fn read_one_word(alloc: Global, escape: Escape, text: &str) -> Result<Word, TextFault>
    ensures { Meets (one_word_read escape text.now) (one_word_due escape text.now) result }
{
    let words = split(alloc, escape, text)?;
    let Some(argument) = only_text(&words) else {
        return Err(Fault::Because(Code::R06));
    };
    closed(escape, text)?;
    let word = Word::read(alloc, Kind::Quoted, escape, argument)?;
    Ok(word)
}

/// USER: one word.
pub(crate) fn read_user(
    alloc: Global,
    escape: Escape,
    text: &str,
) -> Result<InstructionKind, TextFault>
    ensures { Meets (option_map (λ user. InstructionKind.User user) (one_word_read escape text.now)) (one_word_due escape text.now) result }
{
    let user = read_one_word(alloc, escape, text)?;
    Ok(InstructionKind::User { user })
}

/// WORKDIR: one word.
pub(crate) fn read_workdir(
    alloc: Global,
    escape: Escape,
    text: &str,
) -> Result<InstructionKind, TextFault>
    ensures { Meets (option_map (λ path. InstructionKind.Workdir path) (one_word_read escape text.now)) (one_word_due escape text.now) result }
{
    let path = read_one_word(alloc, escape, text)?;
    Ok(InstructionKind::Workdir { path })
}

/// STOPSIGNAL: one word.
pub(crate) fn read_stop_signal(
    alloc: Global,
    escape: Escape,
    text: &str,
) -> Result<InstructionKind, TextFault>
    ensures { Meets (option_map (λ signal. InstructionKind.StopSignal signal) (one_word_read escape text.now)) (one_word_due escape text.now) result }
{
    let signal = read_one_word(alloc, escape, text)?;
    Ok(InstructionKind::StopSignal { signal })
}
