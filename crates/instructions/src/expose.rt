ghost use Rattle.instructions.specs.Expose.{expose_read, expose_due};
ghost use Rattle.instructions.specs.Least.{Meets};

use crate::InstructionKind;
use crate::expanded::{all_words, are_none};
use expand::Kind;
use lines::Escape;
use plain::{Code, Fault};
use std::alloc::Global;
use words::{TextFault, closed, split};

/// EXPOSE: one word or more.
pub(crate) fn read_expose(
    alloc: Global,
    escape: Escape,
    text: &str,
) -> Result<InstructionKind, TextFault>
    ensures { Meets (expose_read escape text.now) (expose_due escape text.now) result }
{
    let words = split(alloc, escape, text)?;
    if are_none(&words) {
        return Err(Fault::Because(Code::R06));
    }
    closed(escape, text)?;
    let ports = all_words(alloc, Kind::Quoted, escape, &words)?;
    Ok(InstructionKind::Expose { ports })
}
