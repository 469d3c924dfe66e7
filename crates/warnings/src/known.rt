// What the whole file says of names.
ghost use Rattle.std.specs.Prelude.{◌≡◌, IfOk, OnOk, option_map};
ghost use Rattle.std.specs.List.{filter_map};
ghost use Rattle.warnings.specs.Known.{begins_stage, begun_name, defaults, given_name, stage_line};
ghost use Rattle.warnings.specs.PrivateKnown.{AddsNames, AreGivenRows, AreStageRows, KnowsFile, add_some, default_row};

use instructions::{Argument, Instruction, InstructionKind};
use named::{NamedRows, Present};
use plain::{Exact, Memory, Text};
use std::alloc::Global;
use std::hash::RandomState;

/// What the whole file says of names.
#[derive(Drop)]
pub(crate) struct Known {
    /// The line of the first FROM that gives its stage a name, by the name in lower case.
    pub(crate) stages: NamedRows<u32>,
    /// The names to which the ARGs before the first FROM give a default.
    pub(crate) given: NamedRows<Present>,
}

/// The name that an instruction gives the stage that it begins.
fn begun_name(instruction: &Instruction) -> Option<&Text>
    ensures { option_map (λ name. name.now) result ≡ begun_name instruction.entry.now.kind }
{
    match instruction.kind() {
        InstructionKind::From { name, .. } => name.as_ref(),
        _ => None,
    }
}

/// Adds the line of a FROM that gives its stage a name.
fn add_stage(
    alloc: Global,
    rows: &mut NamedRows<u32>,
    instruction: &Instruction,
) -> Result<(), Memory>
    ensures { OnOk result (rows.new ≡ add_some rows.old (stage_line instruction.now)) }
{
    let Some(name) = begun_name(instruction) else {
        return Ok(());
    };
    let name = name.as_str().to_ascii_lowercase(alloc)?;
    let _added = rows.add(Text::from_string(name), instruction.line())?;
    Ok(())
}

/// The lines of the FROMs that give stages their names.
fn stage_rows(
    alloc: Global,
    keys: RandomState,
    instructions: &[Instruction],
) -> Result<NamedRows<u32>, Memory>
    ensures { IfOk result (AreStageRows instructions.now) }
{
    let mut rows = NamedRows::new(alloc, keys);
    for instruction in instructions {
        add_stage(alloc, &mut rows, instruction)?;
    }
    Ok(rows)
}

/// Adds a name that an ARG declares with a default.
fn add_default(
    alloc: Global,
    given: &mut NamedRows<Present>,
    argument: &Argument,
) -> Result<(), Memory>
    ensures { OnOk result (given.new ≡ add_some given.old (default_row argument.now)) }
{
    if argument.default.is_none() {
        return Ok(());
    }
    let name = argument.name.as_text().copy(alloc)?;
    let _added = given.add(name, Present)?;
    Ok(())
}

/// Adds the names that an ARG declares with a default.
fn add_all(
    alloc: Global,
    given: &mut NamedRows<Present>,
    arguments: &[Argument],
) -> Result<(), Memory>
    ensures { OnOk result (AddsNames (filter_map given_name arguments.now) given.old given.new) }
{
    for argument in arguments {
        add_default(alloc, given, argument)?;
    }
    Ok(())
}

/// Whether an instruction begins a stage.
fn begins_stage(instruction: &Instruction) -> bool
    ensures { result ≡ begins_stage instruction.now.kind }
{
    match instruction.kind() {
        InstructionKind::From { .. } => true,
        _ => false,
    }
}

/// Adds the names that an instruction declares with a default.
#[tactic(auto, using(crate::proofs::KnownFacts::adds_none))]
fn add_defaults(
    alloc: Global,
    given: &mut NamedRows<Present>,
    instruction: &Instruction,
) -> Result<(), Memory>
    ensures { OnOk result (AddsNames (defaults instruction.now.kind) given.old given.new) }
{
    match instruction.kind() {
        InstructionKind::Arg { arguments } => add_all(alloc, given, arguments.as_slice()),
        _ => Ok(()),
    }
}

/// The names to which the ARGs before the first FROM give a default.
fn given_rows(
    alloc: Global,
    keys: RandomState,
    instructions: &[Instruction],
) -> Result<NamedRows<Present>, Memory>
    ensures { IfOk result (AreGivenRows instructions.now) }
{
    let mut given = NamedRows::new(alloc, keys);
    for instruction in instructions {
        if begins_stage(instruction) {
            return Ok(given);
        }
        add_defaults(alloc, &mut given, instruction)?;
    }
    Ok(given)
}

impl Known {
    /// What the instructions of a file say.
    pub(crate) fn of(
        alloc: Global,
        keys: RandomState,
        instructions: &[Instruction],
    ) -> Result<Known, Memory>
        ensures { IfOk result (KnowsFile instructions.now) }
    {
        let stages = stage_rows(alloc, keys, instructions)?;
        let given = given_rows(alloc, keys, instructions)?;
        Ok(Known { stages, given })
    }
}
