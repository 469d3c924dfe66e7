ghost use Rattle.std.specs.Prelude.{◌≡◌, ◌≤◌, ◌∷◌, ◌++◌, [], length, IfOk, SomeIff};
ghost use Rattle.plain.specs.Limits.{most_components};
ghost use Rattle.paths.specs.Name.{IsComponent};
ghost use Rattle.paths.specs.Long.{AreNames};

use crate::Path;
use plain::limits::MOST_COMPONENTS;
use plain::{Exact, Items, Memory, Text, copied_items};
use std::alloc::Global;
use std::marker::Model;

/// Where an entry would be put: like a path, but of any depth. So a copy can say of each entry where it goes before it finds out that
/// one of them is too deep.
#[derive(Debug, Drop)]
pub struct LongPath {
    parts: Items<Text>,
}

impl Model for LongPath {
    ghost use Rattle.std.specs.Prelude.{List, ℕ};
    ghost use Rattle.std.specs.Coded.{coded_list, coded_ℕ};
    ghost use Rattle.paths.specs.Long.{AreNames};

    ghost Value = { List (List ℕ) };

    ghost coded = { coded_list (coded_list coded_ℕ) };

    ghost view = { λ p. p.parts };

    ghost invariant = { λ p. AreNames p.parts };
}

impl LongPath {
    /// A copy of a path.
    pub fn of(alloc: Global, path: &Path) -> Result<LongPath, Memory>
        ensures { IfOk result (λ long. long ≡ path.now) }
    {
        let parts = Items::from_vec(copied_items(alloc, path.components())?);
        Ok(LongPath { parts })
    }

    /// The path of an entry of this name in the directory at this path.
    pub fn child(&self, alloc: Global, name: &Text) -> Result<LongPath, Memory>
        requires { IsComponent name.now }
        ensures { IfOk result (λ long. long ≡ self.now ++ name.now ∷ []) }
    {
        let mut parts = self.parts.copy(alloc)?;
        parts.push(name.copy(alloc)?)?;
        Ok(LongPath { parts })
    }

    /// The components, from the root down, lent.
    pub fn components(&self) -> &[Text]
        ensures value { result.now ≡ self.now }
        ensures names { AreNames self.now }
    {
        self.parts.as_slice()
    }

    /// The same path, where it has at most 64 components; `None` where it has more. It takes no memory.
    pub fn into_path(self) -> Option<Path>
        ensures { SomeIff result (length self ≤ most_components) self }
    {
        let LongPath { parts } = self;
        if parts.len() > MOST_COMPONENTS {
            return None;
        }
        Some(Path::from_parts(parts.into_vec()))
    }
}

impl Exact for LongPath {
    fn same(&self, other: &LongPath) -> bool {
        self.parts.same(&other.parts)
    }

    fn copy(&self, alloc: Global) -> Result<LongPath, Memory> {
        let parts = self.parts.copy(alloc)?;
        Ok(LongPath { parts })
    }
}
