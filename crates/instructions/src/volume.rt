ghost use Rattle.instructions.specs.Least.{Meets};
ghost use Rattle.instructions.specs.Volume.{volume_read, volume_due};

use crate::InstructionKind;
use crate::expanded::{all_words, are_none, kind_of, texts};
use lines::Escape;
use plain::{Code, Fault};
use std::alloc::Global;
use words::{TextFault, closed, json_form};

/// VOLUME: a list in JSON, or words, one text or more.
pub(crate) fn read_volume(
    alloc: Global,
    escape: Escape,
    text: &str,
) -> Result<InstructionKind, TextFault>
    ensures { Meets (volume_read escape text.now) (volume_due escape text.now) result }
{
    let form = json_form(alloc, text)?;
    let is_list = form.is_some();
    let texts = texts(alloc, escape, text, &form)?;
    if are_none(&texts) {
        return Err(Fault::Because(Code::R06));
    }
    if !is_list {
        closed(escape, text)?;
    }
    let paths = all_words(alloc, kind_of(is_list), escape, &texts)?;
    Ok(InstructionKind::Volume { paths })
}
