// Paths that are given where they aren't past the limits.
ghost use Rattle.std.specs.Prelude.{◌≡◌, IfOk};
ghost use Rattle.paths.specs.Reading.{read_from};
ghost use Rattle.actions.specs.PrivateTexts.{within};

use paths::Path;
use plain::{Fault, Memory};
use std::alloc::Global;

/// The path that a text leads to from a base, or none where it is past the limits.
pub(crate) fn path_within(alloc: Global, text: &str, base: &Path) -> Result<Option<Path>, Memory>
    ensures { IfOk result (λ path. path ≡ within (read_from text.now base.now)) }
{
    match Path::read(alloc, text, base) {
        Ok(path) => Ok(Some(path)),
        Err(Fault::Because(_)) => Ok(None),
        Err(Fault::Memory) => Err(Memory),
    }
}
