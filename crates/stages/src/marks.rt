// Marks the stages that a target needs.
ghost use Rattle.std.specs.Prelude.{◌<◌, [], ◌∷◌, length, vec_len, IfOk};
ghost use Rattle.std.specs.List.{All};
ghost use Rattle.plain.specs.PrivateMarks.{MarksMore};
ghost use Rattle.stages.specs.Table.{IsBefore};
ghost use Rattle.stages.specs.Needed.{origins_in, stage_origins, AreNeeded};
ghost use Rattle.stages.specs.PrivateMarks.{HasStage, AreInPlace};

use crate::stage::{ResolvedInstruction, ResolvedStage};
use plain::{Items, Memory, no_marks};
use rows::Origin;
use std::alloc::Global;

/// Marks the stage that is named, if it is one.
#[tactic(auto, using(crate::proofs::MarkFacts::stage_marked, crate::proofs::MarkFacts::source_marked))]
fn mark_one(marks: &mut Vec<bool>, origin: &Origin)
    requires { IsBefore (vec_len marks.old) origin.now }
    ensures { MarksMore marks.old.items marks.new.items (HasStage (origin.now ∷ [])) }
{
    match origin {
        Origin::Stage(number) => marks[*number as usize] = true,
        Origin::Source(_) => {}
    }
}

/// Marks the stages among these origins.
fn mark(marks: &mut Vec<bool>, origins: &[Origin])
    requires { All (IsBefore (vec_len marks.old)) origins.now }
    ensures { MarksMore marks.old.items marks.new.items (HasStage origins.now) }
{
    for origin in origins {
        mark_one(marks, origin);
    }
}

/// Marks the stages that these instructions name.
fn mark_named(marks: &mut Vec<bool>, instructions: &[ResolvedInstruction])
    requires { All (λ r. All (IsBefore (vec_len marks.old)) r.origins) instructions.now }
    ensures { MarksMore marks.old.items marks.new.items (HasStage (origins_in instructions.now)) }
{
    for resolved in instructions {
        mark(marks, resolved.origins.as_slice());
    }
}

/// Marks the stages that a stage names.
fn mark_stage(marks: &mut Vec<bool>, stage: &ResolvedStage)
    requires base { IsBefore (vec_len marks.old) stage.now.base }
    requires instructions { All (λ r. All (IsBefore (vec_len marks.old)) r.origins) stage.now.instructions }
    ensures { MarksMore marks.old.items marks.new.items (HasStage (stage_origins stage.now)) }
{
    mark_one(marks, &stage.base);
    mark_named(marks, stage.instructions.as_slice());
}

/// Marks the stages that the target needs. A stage names only earlier ones, so one pass from the last one on is enough.
pub(crate) fn mark_needed(
    alloc: Global,
    stages: &[ResolvedStage],
    target: u32,
) -> Result<Items<bool>, Memory>
    requires stages { AreInPlace stages.now }
    requires target { target < length stages.now }
    ensures { IfOk result (AreNeeded stages.now target) }
{
    let mut marks = no_marks(alloc, stages.len())?;
    marks[target as usize] = true;
    let mut at = stages.len();
    while at > 0 {
        at -= 1;
        if marks[at] {
            mark_stage(&mut marks, &stages[at]);
        }
    }
    Ok(Items::from_vec(marks))
}
