ghost use Rattle.std.specs.Prelude.{◌≡◌};
ghost use Rattle.dockerfile.specs.Dockerfile.{IsDockerfile, IsMade, IsRead, IsReadWithLines};
ghost use Rattle.dockerfile.specs.Faults.{IsChecked};

use crate::checking::{all_spelled, lines_or_faults};
use crate::order::stand_in_order;
use crate::reading::{logical_lines, spelled};
use instructions::Instruction;
use lines::{Line, LineFault};
use plain::{Fault, Items, Refusal};
use std::alloc::Global;
use std::marker::Model;

/// A Dockerfile's instructions, in the order of the file.
///
/// Contracts see their list. Each instruction is whole, their lines ascend from 1 on, and there are at most 4,096 of them.
#[derive(Debug, Drop)]
pub struct Dockerfile {
    instructions: Items<Instruction>,
}

impl Model for Dockerfile {
    ghost use Rattle.std.specs.Prelude.{List};
    ghost use Rattle.std.specs.Coded.{coded_list};
    ghost use Rattle.instructions.specs.Instruction.{Instruction};
    ghost use Rattle.instructions.specs.contracts.instruction.Instruction as instruction;

    ghost Value = { List Instruction };

    ghost coded = { coded_list instruction.the_row.coded };

    ghost use Rattle.dockerfile.specs.Dockerfile.{IsDockerfile};

    ghost view = { λ d. d.instructions };

    ghost invariant = { λ d. IsDockerfile d.instructions };
}

impl Dockerfile {
    /// The instructions of a text: one for each of its logical lines (Dockerfile reference).
    ///
    /// A text is refused with the least fault by phase, then line, then number (own): with what is wrong with the whole text or its
    /// lines, as a reader of lines tells it; else at the first line that spells no instruction, with the least code that is due for it,
    /// as `parse` tells it.
    pub fn read(alloc: Global, text: &[u8]) -> Result<Dockerfile, LineFault>
        ensures { IsRead text.now result }
    {
        let (file, lines) = Dockerfile::read_with_lines(alloc, text)?;
        drop(lines);
        Ok(file)
    }

    /// The instructions of a text, and the logical lines that spell them, one each and in their order. The refusals are those of `read`.
    pub fn read_with_lines(
        alloc: Global,
        text: &[u8],
    ) -> Result<(Dockerfile, Items<Line>), LineFault>
        ensures { IsReadWithLines text.now result }
    {
        let lines = logical_lines(alloc, text)?;
        match spelled(alloc, lines.as_slice()) {
            Ok(instructions) => Ok((Dockerfile { instructions }, Items::from_vec(lines))),
            Err(fault) => {
                drop(lines);
                Err(fault)
            }
        }
    }

    /// The instructions of a text, or all that it is refused for, in the order of the lines (own).
    ///
    /// Where something is wrong with the whole text or its lines, that alone is reported; else each line that spells no instruction, with
    /// the least code that is due for it. The first of these is what `read` refuses the text with, as the law
    /// `the_first_fault_is_the_refusal` says.
    pub fn check(alloc: Global, text: &[u8]) -> Result<Dockerfile, Fault<Items<Refusal>>>
        ensures { IsChecked text.now result }
    {
        let lines = lines_or_faults(alloc, text)?;
        let instructions = all_spelled(alloc, lines)?;
        Ok(Dockerfile { instructions })
    }

    /// The Dockerfile of a list of instructions that somebody made by `parse`, line by line.
    ///
    /// It is one exactly if the lines of the instructions ascend from 1 on, none is above 1,048,576, and there are at most 4,096 of them; else
    /// the list is given back. It takes no memory.
    pub fn from_vec(instructions: Vec<Instruction>) -> Result<Dockerfile, Vec<Instruction>>
        ensures { IsMade instructions.items result }
    {
        if !stand_in_order(&instructions) {
            return Err(instructions);
        }
        Ok(Dockerfile {
            instructions: Items::from_vec(instructions),
        })
    }

    /// The instructions, lent.
    pub fn instructions(&self) -> &[Instruction]
        ensures list { result.now ≡ self.now }
        ensures whole { IsDockerfile self.now }
    {
        self.instructions.as_slice()
    }

    /// The instructions. It takes no memory.
    pub fn into_instructions(self) -> Items<Instruction>
        ensures list { result ≡ self }
        ensures whole { IsDockerfile result }
    {
        let Dockerfile { instructions } = self;
        instructions
    }
}
