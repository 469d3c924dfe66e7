ghost use Rattle.std.specs.Prelude.{◌≡◌, ◌↔◌, [], ◌∷◌, ◌++◌, length, IsTrue, IfOk, MatchOption};
ghost use Rattle.paths.specs.Path.{IsClean, climbed, parent_of, is_at_or_under, text_of};

use plain::{Exact, Items, Memory, Text, copied_items};
use std::alloc::Global;
use std::cmp::Ordering;
use std::marker::Model;

/// An absolute, clean path: at most 64 components of 1 to 255 bytes of UTF-8 each, none of them `.` or `..`
/// and none with a `/`. The root has no component.
///
/// Contracts see the list of its components, each as its bytes. Paths are ordered component by component, by bytes.
#[derive(Debug, Drop)]
pub struct Path {
    parts: Items<Text>,
}

impl Model for Path {
    ghost use Rattle.std.specs.Prelude.{List, ℕ};
    ghost use Rattle.std.specs.Coded.{coded_list, coded_ℕ};
    ghost use Rattle.paths.specs.Path.{IsClean};

    ghost Value = { List (List ℕ) };

    ghost coded = { coded_list (coded_list coded_ℕ) };

    ghost view = { λ p. p.parts };

    ghost invariant = { λ p. IsClean p.parts };
}

impl Path {
    /// The root, `/`. It takes no memory.
    pub fn root(alloc: Global) -> Path
        ensures { result ≡ [] }
    {
        Path {
            parts: Items::new(alloc),
        }
    }

    /// The path of these components. It takes no memory.
    pub(crate) fn from_parts(parts: Vec<Text>) -> Path
        requires { IsClean parts.items }
        ensures { result ≡ parts.items }
    {
        Path {
            parts: Items::from_vec(parts),
        }
    }

    /// The components, from the root down, lent.
    pub fn components(&self) -> &[Text]
        ensures value { result.now ≡ self.now }
        ensures clean { IsClean self.now }
    {
        self.parts.as_slice()
    }

    /// How many components the path has: 0 for the root.
    pub fn depth(&self) -> usize
        ensures { result ≡ length self.now }
    {
        self.parts.len()
    }

    /// Whether it is the root.
    pub fn is_root(&self) -> bool
        ensures { IsTrue result ↔ (self.now ≡ []) }
    {
        self.parts.is_empty()
    }

    /// The last component, or none for the root.
    pub fn name(&self) -> Option<&Text>
        ensures { MatchOption result (self.now ≡ []) (λ name. self.now ≡ climbed self.now ++ name.now ∷ []) }
    {
        match self.components() {
            [] => None,
            [.., name] => Some(name),
        }
    }

    /// The path of an entry of this name in the directory at this path. It reads no text: the name is one component, and the path isn't
    /// at its limit.
    pub fn child(&self, alloc: Global, name: &Text) -> Result<Path, Memory>
        requires { IsClean (self.now ++ name.now ∷ []) }
        ensures { IfOk result (λ path. path ≡ self.now ++ name.now ∷ []) }
    {
        let mut parts = copied_items(alloc, self.components())?;
        parts.push(name.copy(alloc)?)?;
        Ok(Path::from_parts(parts))
    }

    /// The directory that the path stands in: the path without its last component, or none for the root.
    pub fn parent(&self, alloc: Global) -> Result<Option<Path>, Memory>
        ensures { IfOk result (λ parent. parent ≡ parent_of self.now) }
    {
        match self.components() {
            [] => Ok(None),
            [front @ .., _] => Ok(Some(Path::from_parts(copied_items(alloc, front)?))),
        }
    }

    /// Whether the path is `top` or lies below it: every path is at or under the root, and `/ab` isn't at or
    /// under `/a`.
    pub fn is_at_or_under(&self, top: &Path) -> bool
        ensures { result ≡ is_at_or_under self.now top.now }
    {
        self.components().starts_with(top.components())
    }

    /// The path as a text: `/` for the root, else a `/` before each component. Reading it gives the path back.
    pub fn text(&self, alloc: Global) -> Result<Text, Memory>
        ensures { IfOk result (λ text. text ≡ text_of self.now) }
    {
        if self.is_root() {
            return Text::from_str(alloc, "/");
        }
        let mut text = String::new(alloc);
        for part in self.components() {
            text.push('/')?;
            text.push_str(part.as_str())?;
        }
        Ok(Text::from_string(text))
    }
}

impl Exact for Path {
    fn same(&self, other: &Path) -> bool {
        self.parts.same(&other.parts)
    }

    fn copy(&self, alloc: Global) -> Result<Path, Memory> {
        let parts = self.parts.copy(alloc)?;
        Ok(Path { parts })
    }
}

impl PartialEq for Path {
    ghost use Rattle.std.specs.Cmp.{partial_equiv_from_equiv};
    ghost use Rattle.paths.specs.Order.{path_eq};
    ghost use Rattle.paths.specs.OrderLaws.{path_eq_equiv};

    ghost eq = { path_eq };

    ghost laws = { partial_equiv_from_equiv path_eq_equiv };

    fn eq(&self, other: &Path) -> bool {
        self.components() == other.components()
    }
}

impl Eq for Path {
    ghost use Rattle.paths.specs.OrderLaws.{path_eq_equiv};

    ghost laws = { path_eq_equiv };
}

impl PartialOrd for Path {
    ghost use Rattle.std.specs.Prelude.{Some};
    ghost use Rattle.paths.specs.Order.{path_cmp};
    ghost use Rattle.paths.specs.OrderLaws.{path_po};

    ghost partial_cmp = { λ p q. Some (path_cmp p q) };

    ghost laws = { path_po };

    fn partial_cmp(&self, other: &Path) -> Option<Ordering> {
        Some(self.cmp(other))
    }
}

impl Ord for Path {
    ghost use Rattle.std.specs.Prelude.{refl};
    ghost use Rattle.paths.specs.Order.{path_cmp};
    ghost use Rattle.paths.specs.OrderLaws.{path_cmp_total, path_ties};

    ghost cmp = { path_cmp };

    ghost total = { path_cmp_total };

    ghost matches_partial_cmp = { λ p q. refl };

    ghost matches_eq = { path_ties };

    fn cmp(&self, other: &Path) -> Ordering {
        self.components().cmp(other.components())
    }
}
