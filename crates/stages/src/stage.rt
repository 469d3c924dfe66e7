use expand::Copied;
use instructions::Instruction;
use plain::{Exact, Items, Memory};
use rows::Origin;
use std::alloc::Global;

/// An instruction of a stage, and where the trees come from that it names: for a COPY one origin, which is the context without `--from`; for a
/// RUN one for each bind, in the order of the line; for another none.
#[derive(Drop)]
pub struct ResolvedInstruction {
    pub instruction: Instruction,
    pub origins: Items<Origin>,
}

impl Copied for ResolvedInstruction {
    fn copied(&self, alloc: Global) -> Result<ResolvedInstruction, Memory> {
        let origins = self.origins.copy(alloc)?;
        match self.instruction.copied(alloc) {
            Ok(instruction) => Ok(ResolvedInstruction {
                instruction,
                origins,
            }),
            Err(memory) => {
                drop(origins);
                Err(memory)
            }
        }
    }
}

/// A stage as it is written, with what its names lead to.
#[derive(Drop)]
pub struct ResolvedStage {
    /// The line of its FROM.
    pub line: u32,
    /// What it begins with.
    pub base: Origin,
    /// The instructions that follow its FROM, up to the next one.
    pub instructions: Items<ResolvedInstruction>,
}

impl Copied for ResolvedStage {
    fn copied(&self, alloc: Global) -> Result<ResolvedStage, Memory> {
        let base = self.base.copy(alloc)?;
        match self.instructions.copied(alloc) {
            Ok(instructions) => Ok(ResolvedStage {
                line: self.line,
                base,
                instructions,
            }),
            Err(memory) => {
                drop(base);
                Err(memory)
            }
        }
    }
}
