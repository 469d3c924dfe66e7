ghost use Rattle.instructions.specs.Least.{Meets};
ghost use Rattle.instructions.specs.Shell.{shell_read, shell_due};

use crate::InstructionKind;
use plain::{Code, Fault};
use std::alloc::Global;
use words::{TextFault, json_form};

/// SHELL: a list in JSON with one word at least.
pub(crate) fn read_shell(alloc: Global, text: &str) -> Result<InstructionKind, TextFault>
    ensures { Meets (shell_read text.now) (shell_due text.now) result }
{
    let Some(words) = json_form(alloc, text)? else {
        return Err(Fault::Because(Code::R06));
    };
    if words.is_empty() {
        return Err(Fault::Because(Code::R06));
    }
    Ok(InstructionKind::Shell { words })
}
