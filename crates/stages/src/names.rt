// The names of a file's stages.
ghost use Rattle.std.specs.Prelude.{◌≡◌, IfOk};
ghost use Rattle.stages.specs.Before.{stage_names};

use crate::target::name_begun;
use dockerfile::Dockerfile;
use plain::{Exact, Items, Memory, Text};
use std::alloc::Global;

/// The names of a file's stages by their numbers, `None` for a stage that has none (Dockerfile reference, FROM).
pub fn stage_names(alloc: Global, file: &Dockerfile) -> Result<Items<Option<Text>>, Memory>
    ensures { IfOk result (λ names. names ≡ stage_names file.now) }
{
    let mut names = Items::new(alloc);
    let instructions = file.instructions();
    for instruction in instructions {
        if let Some(name) = name_begun(instruction) {
            names.push(name.copy(alloc)?)?;
        }
    }
    Ok(names)
}
