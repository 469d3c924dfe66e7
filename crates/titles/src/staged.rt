// The stages in which instructions stand.
ghost use Rattle.std.specs.Prelude.{◌≡◌, Some, IfOk};
ghost use Rattle.titles.specs.Stages.{stage_named, stages_of};

use crate::titling::with_title;
use plain::{Exact, Items, Memory, Text};
use stages::ResolvedStage;
use std::alloc::Global;

/// Names by the numbers of lines, with that of a stage for each of its instructions.
fn stage_named(
    alloc: Global,
    named: Items<Option<Text>>,
    name: &Text,
    stage: &ResolvedStage,
) -> Result<Items<Option<Text>>, Memory>
    ensures { IfOk result (λ more. more ≡ stage_named (Some name.now) stage.now.instructions named) }
{
    let mut named = named;
    for resolved in stage.instructions.as_slice() {
        let line = resolved.instruction.line();
        named = with_title(alloc, named, line, name.copy(alloc)?)?;
    }
    Ok(named)
}

/// The name of the stage in which each instruction stands, by the line of the instruction; `None` for a stage without a name, for its FROM, and for
/// any other line. The stages have these names.
pub fn stages_of(
    alloc: Global,
    names: &[Option<Text>],
    stages: &[ResolvedStage],
) -> Result<Items<Option<Text>>, Memory>
    ensures { IfOk result (λ named. named ≡ stages_of names.now stages.now) }
{
    let mut named = Items::new(alloc);
    for (number, stage) in stages.iter().enumerate() {
        match names.get(number) {
            Some(Some(name)) => named = stage_named(alloc, named, name, stage)?,
            Some(None) | None => {}
        }
    }
    Ok(named)
}
