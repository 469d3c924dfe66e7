ghost use Rattle.std.specs.Prelude.{◌≡◌, ◌==◌, not, length, option_map, IfOk};
ghost use Rattle.words.specs.Flag.{flags, behind_flags};
ghost use Rattle.instructions.specs.From.{from_read, from_due, stage_words, is_bad_name};
ghost use Rattle.instructions.specs.Least.{Meets};
ghost use Rattle.instructions.specs.PrivateLent.{lent_texts};

use crate::InstructionKind;
use crate::names::{is_same_name, is_stage_name};
use expand::{Kind, Word};
use lines::Escape;
use plain::{Code, Fault, Memory, Text};
use std::alloc::Global;
use words::{TextFault, closed, flags, split};

/// The image and the name of a FROM's words, where they are as it wants them.
fn stage_words<'a>(words: &'a [&'a str]) -> Option<(&'a str, Option<&'a str>)>
    ensures { option_map (λ found. (found.0.now, option_map (λ name. name.now) found.1)) result ≡ stage_words (lent_texts words.now) }
{
    match words {
        [image] => Some((image, None)),
        [image, second, name] => {
            if is_same_name(second, "as") {
                Some((image, Some(name)))
            } else {
                None
            }
        }
        _ => None,
    }
}

/// Whether a stage's name is there, and is none.
fn is_bad_name(name: Option<&str>) -> bool
    ensures { result ≡ is_bad_name (option_map (λ n. n.now) name.entry) }
{
    match name {
        Some(name) => !is_stage_name(name),
        None => false,
    }
}

/// A stage's name, where there is one.
fn copied_name(alloc: Global, name: Option<&str>) -> Result<Option<Text>, Memory>
    ensures { IfOk result (λ copied. copied ≡ option_map (λ n. n.now) name.entry) }
{
    match name {
        Some(name) => Ok(Some(Text::from_str(alloc, name)?)),
        None => Ok(None),
    }
}

/// Whether a text begins with flags, and what stands behind them.
fn cut_flags<'a>(alloc: Global, text: &'a str) -> Result<(bool, &'a str), Memory>
    ensures { IfOk result (λ cut. (cut.0 ≡ not (length (flags text.now) == 0)) × (cut.1.now ≡ behind_flags text.now)) }
{
    let (flags, rest) = flags(alloc, text)?;
    let has_flags = !flags.is_empty();
    drop(flags);
    Ok((has_flags, rest))
}

/// FROM: `image` or `image AS name`.
pub(crate) fn read_from(
    alloc: Global,
    escape: Escape,
    text: &str,
) -> Result<InstructionKind, TextFault>
    ensures { Meets (from_read escape text.now) (from_due escape text.now) result }
{
    let (has_flags, rest) = cut_flags(alloc, text)?;
    let words = split(alloc, escape, rest)?;
    let Some((image, name)) = stage_words(&words) else {
        return Err(Fault::Because(Code::R06));
    };
    if has_flags {
        return Err(Fault::Because(Code::R07));
    }
    closed(escape, rest)?;
    let image = Word::read(alloc, Kind::Quoted, escape, image)?;
    if is_bad_name(name) {
        return Err(Fault::Because(Code::R10));
    }
    let name = copied_name(alloc, name)?;
    Ok(InstructionKind::From { image, name })
}
