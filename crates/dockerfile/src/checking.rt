// Going through all lines of a text, past those that spell nothing.
ghost use Rattle.std.specs.Prelude.{◌≡◌, [], ◌∷◌, IfOk, OnOk};
ghost use Rattle.dockerfile.specs.PrivateDockerfile.{AreAllParsed, Adds, AreLinesOrFaults};

use crate::reading::logical_lines;
use instructions::{Instruction, parse};
use lines::{Line, LineFault};
use plain::{Fault, Items, Memory, Refusal};
use std::alloc::Global;

/// A list of one refusal.
fn alone(alloc: Global, refusal: Refusal) -> Result<Items<Refusal>, Memory>
    ensures { IfOk result (λ refusals. refusals ≡ refusal ∷ []) }
{
    let mut refusals = Items::new(alloc);
    refusals.push(refusal)?;
    Ok(refusals)
}

/// The logical lines of a text, or the one fault that it has where it has none.
pub(crate) fn lines_or_faults(
    alloc: Global,
    text: &[u8],
) -> Result<Vec<Line>, Fault<Items<Refusal>>>
    ensures { AreLinesOrFaults text.now result }
{
    match logical_lines(alloc, text) {
        Ok(lines) => Ok(lines),
        Err(Fault::Because(refusal)) => {
            let faults = alone(alloc, refusal)?;
            Err(Fault::Because(faults))
        }
        Err(Fault::Memory) => Err(Fault::Memory),
    }
}

/// Adds what a line gave to the instructions so far, or to the refusals.
fn add(
    instructions: &mut Items<Instruction>,
    refusals: &mut Items<Refusal>,
    parsed: Result<Instruction, LineFault>,
) -> Result<(), Memory>
    ensures { OnOk result (Adds parsed instructions.old refusals.old instructions.new refusals.new) }
{
    match parsed {
        Ok(instruction) => instructions.push(instruction),
        Err(Fault::Because(refusal)) => refusals.push(refusal),
        Err(Fault::Memory) => Err(Memory),
    }
}

/// The instructions that lines spell, or the refusals of all lines that spell none.
pub(crate) fn all_spelled(
    alloc: Global,
    lines: Vec<Line>,
) -> Result<Items<Instruction>, Fault<Items<Refusal>>>
    ensures { AreAllParsed lines.items result }
{
    let mut instructions = Items::new(alloc);
    let mut refusals = Items::new(alloc);
    for line in lines {
        let parsed = parse(alloc, &line);
        add(&mut instructions, &mut refusals, parsed)?;
    }
    if refusals.is_empty() {
        Ok(instructions)
    } else {
        Err(Fault::Because(refusals))
    }
}
