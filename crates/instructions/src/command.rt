ghost use Rattle.std.specs.Prelude.{◌≡◌, option_map, IfOk};
ghost use Rattle.instructions.specs.Command.{command_of, command_read, command_due};
ghost use Rattle.instructions.specs.Least.{Meets};

use crate::{Command, InstructionKind};
use plain::{Code, Fault, Memory, Text};
use std::alloc::Global;
use words::{TextFault, json_form};

/// The command that a text is: a list in JSON, else a text for the shell.
pub(crate) fn command_of(alloc: Global, text: &str) -> Result<Command, Memory>
    ensures { IfOk result (λ command. command ≡ command_of text.now) }
{
    match json_form(alloc, text)? {
        Some(words) => Ok(Command::Exec(words)),
        None => Ok(Command::Shell(Text::from_str(alloc, text)?)),
    }
}

/// The command of CMD or ENTRYPOINT.
fn read_command(alloc: Global, text: &str) -> Result<Command, TextFault>
    ensures { Meets (command_read text.now) (command_due text.now) result }
{
    if text.is_empty() {
        return Err(Fault::Because(Code::R06));
    }
    Ok(command_of(alloc, text)?)
}

/// CMD: a command.
pub(crate) fn read_cmd(alloc: Global, text: &str) -> Result<InstructionKind, TextFault>
    ensures { Meets (option_map (λ command. InstructionKind.Cmd command) (command_read text.now)) (command_due text.now) result }
{
    let command = read_command(alloc, text)?;
    Ok(InstructionKind::Cmd { command })
}

/// ENTRYPOINT: a command.
pub(crate) fn read_entrypoint(alloc: Global, text: &str) -> Result<InstructionKind, TextFault>
    ensures { Meets (option_map (λ command. InstructionKind.Entrypoint command) (command_read text.now)) (command_due text.now) result }
{
    let command = read_command(alloc, text)?;
    Ok(InstructionKind::Entrypoint { command })
}
