ghost use Rattle.lines.specs.Text.{ReadsText};
ghost use Rattle.dockerfile.specs.PrivateDockerfile.{AreParsed};

use instructions::{Instruction, parse};
use lines::{Line, LineFault, Reader};
use plain::Items;
use std::alloc::Global;

/// How many bytes of a text are fed at once.
const PIECE: usize = 4096;

/// The logical lines of a text, or why there are none.
pub(crate) fn logical_lines(alloc: Global, text: &[u8]) -> Result<Vec<Line>, LineFault>
    ensures { ReadsText text.now result }
{
    let mut reader = Reader::new(alloc);
    let mut fed = 0;
    'feeding: while fed < text.len() {
        let end = fed + PIECE.min(text.len() - fed);
        match reader.feed(alloc, &text[fed..end]) {
            Ok(()) => fed = end,
            Err(memory) => {
                drop(reader);
                return Err(memory.into());
            }
        }
    }
    reader.finish(alloc)
}

/// The instructions that lines spell, or the refusal of the first line that spells none.
pub(crate) fn spelled(alloc: Global, lines: &[Line]) -> Result<Items<Instruction>, LineFault>
    ensures { AreParsed lines.now result }
{
    let mut instructions = Items::new(alloc);
    for line in lines {
        match parse(alloc, line) {
            Ok(instruction) => instructions.push(instruction)?,
            Err(fault) => return Err(fault),
        }
    }
    Ok(instructions)
}
