// Whether instructions stand as those of a Dockerfile do.
ghost use Rattle.std.specs.Prelude.{◌↔◌, IsTrue};
ghost use Rattle.std.specs.List.{All};
ghost use Rattle.instructions.specs.Instruction.{IsInstruction};
ghost use Rattle.dockerfile.specs.Dockerfile.{AscendBelow, StandInOrder};

use instructions::Instruction;
use plain::limits::{MOST_LINE_NUMBER, MOST_LINES};

/// Whether the lines of instructions ascend from 1 on and may be numbers of lines, and there are no more of them than a Dockerfile may have
/// lines. That each is whole its type keeps.
pub(crate) fn stand_in_order(instructions: &[Instruction]) -> bool
    ensures order { IsTrue result ↔ StandInOrder instructions.now }
    ensures whole { IsTrue result → All (λ i. IsInstruction i.kind) instructions.now }
{
    instructions.len() <= MOST_LINES && ascend(instructions)
}

/// Whether their lines ascend from 1 on, and may be numbers of lines.
fn ascend(instructions: &[Instruction]) -> bool
    ensures order { IsTrue result ↔ AscendBelow 0 instructions.now }
    ensures whole { IsTrue result → All (λ i. IsInstruction i.kind) instructions.now }
{
    let mut last = 0;
    for instruction in instructions {
        let _whole = instruction.kind();
        let line = instruction.line();
        if line <= last || line > MOST_LINE_NUMBER {
            return false;
        }
        last = line;
    }
    true
}
