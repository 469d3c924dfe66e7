ghost use Rattle.std.specs.Prelude.{◌≡◌, ◌≤◌, ◌<◌, ◌+◌, ◌^◌, ℕ, true, List, [], ◌∷◌, ◌++◌, if◌then◌else◌, length, IfOk, OnOk};
ghost use Rattle.std.specs.List.{list_all};
ghost use Rattle.plain.specs.Limits.{most_components};
ghost use Rattle.paths.specs.Path.{IsClean, is_idle, is_up, is_name, are_short, climbed};
ghost use Rattle.paths.specs.Reading.{IsRead, read_from, is_absolute, stepped, pieces, walked};
ghost use Rattle.paths.specs.PrivateWalk.{IsWalk};

use crate::pieces::{count_filled, cut_at_slash};
use crate::{Path, PathFault, PathLimit};
use plain::limits::{MOST_COMPONENT_BYTES, MOST_COMPONENTS};
use plain::{Exact, Fault, Memory, Text};
use std::alloc::Global;

/// A walk along the pieces of a text. However many these are, it keeps no more than the first 64 components of the path that it has
/// come to: of the others it only counts how many there are, since a path that ends with any of them is too deep. What it keeps
/// becomes the path's own list, so a component is copied once. One that is too long is kept until the end: a `..` may still take it
/// away.
#[derive(Drop)]
struct Walk {
    kept: Vec<Text>,
    beyond: usize,
}

impl Walk {
    /// A walk that has come to a path, and has room for so many components.
    fn begin(alloc: Global, start: &[Text], room: usize) -> Result<Walk, Memory>
        requires { length start.now ≤ most_components }
        ensures { IfOk result (λ walk. IsWalk walk.kept.items walk.beyond start.now) }
    {
        let mut kept = Vec::with_capacity(alloc, room)?;
        for part in start {
            kept.push(part.copy(alloc)?)?;
        }
        Ok(Walk { kept, beyond: 0 })
    }

    /// Goes where one piece of a text leads.
    fn step(&mut self, alloc: Global, piece: &str) -> Result<(), Memory>
        requires { self.old.beyond + 1 < 2 ^ 64 }
        ensures { OnOk result ((p : List (List ℕ))
            → IsWalk self.old.kept.items self.old.beyond p
            → IsWalk self.new.kept.items self.new.beyond (stepped p piece.now)) }
    {
        if is_idle(piece) {
            return Ok(());
        }
        if is_up(piece) {
            self.climb();
            return Ok(());
        }
        self.enter(alloc, piece)
    }

    /// Goes up to the parent; at the root it stays.
    fn climb(&mut self)
        ensures { (p : List (List ℕ))
            → IsWalk self.old.kept.items self.old.beyond p
            → IsWalk self.new.kept.items self.new.beyond (climbed p) }
    {
        if self.beyond > 0 {
            self.beyond -= 1;
        } else {
            self.kept.pop();
        }
    }

    /// Goes down to a name.
    fn enter(&mut self, alloc: Global, name: &str) -> Result<(), Memory>
        requires { self.old.beyond + 1 < 2 ^ 64 }
        ensures { OnOk result ((p : List (List ℕ))
            → IsWalk self.old.kept.items self.old.beyond p
            → IsWalk self.new.kept.items self.new.beyond (p ++ name.now ∷ [])) }
    {
        if self.kept.len() < MOST_COMPONENTS {
            self.kept.push(Text::from_str(alloc, name)?)?;
        } else {
            self.beyond += 1;
        }
        Ok(())
    }

    /// The path that the walk has come to, or the limit that it breaks.
    fn path(self) -> Result<Path, PathFault>
        requires names { list_all is_name self.kept.items ≡ true }
        requires few { length self.kept.items ≤ most_components }
        ensures { (p : List (List ℕ)) → IsWalk self.kept.items self.beyond p → IsRead p result }
    {
        let Walk { mut kept, beyond } = self;
        if beyond > 0 {
            return Err(Fault::Because(PathLimit::TooDeep));
        }
        if !are_short(&kept) {
            return Err(Fault::Because(PathLimit::TooLong));
        }
        kept.shrink_to_fit();
        Ok(Path::from_parts(kept))
    }
}

/// Whether a piece leads nowhere: it is empty or `.`.
pub(crate) fn is_idle(piece: &str) -> bool
    ensures { result ≡ is_idle piece.now }
{
    matches!(piece.as_bytes(), [] | [b'.'])
}

/// Whether a piece leads up: it is `..`.
pub(crate) fn is_up(piece: &str) -> bool
    ensures { result ≡ is_up piece.now }
{
    matches!(piece.as_bytes(), [b'.', b'.'])
}

/// Whether no component is too long.
fn are_short(parts: &[Text]) -> bool
    ensures { result ≡ are_short parts.now }
{
    parts.iter().all(|part| part.len() <= MOST_COMPONENT_BYTES)
}

/// The components that a text is read from: those of the base, and none for an absolute text.
fn start<'a>(text: &str, base: &'a Path) -> &'a [Text]
    ensures value { result.now ≡ (if is_absolute text.now then [] else base.now) }
    ensures clean { IsClean result.now }
{
    match text.as_bytes() {
        [b'/', ..] => &[],
        _ => base.components(),
    }
}

/// The walk from there along the pieces of a text.
fn walk_along(alloc: Global, text: &str, start: &[Text]) -> Result<Walk, Memory>
    requires { length start.now ≤ most_components }
    ensures { IfOk result (λ walk. IsWalk walk.kept.items walk.beyond (walked start.now (pieces text.now))) }
{
    let most = start.len() + count_filled(text.as_bytes());
    let mut walk = Walk::begin(alloc, start, most.min(MOST_COMPONENTS))?;
    let mut rest = text;
    while let Some((piece, behind)) = cut_at_slash(rest) {
        walk.step(alloc, piece)?;
        rest = behind;
    }
    walk.step(alloc, rest)?;
    Ok(walk)
}

impl Path {
    /// The path that a text leads to: from the root where the text begins with `/`, else from the base. Empty
    /// components and `.` lead nowhere, `..` leads one up, and from the root to the root.
    ///
    /// The limits count for the path that the text leads to, so 65 components and `/..` are fine: it is `TooDeep` where it
    /// has more than 64 components, else `TooLong` where one of them has more than 255 bytes.
    pub fn read(alloc: Global, text: &str, base: &Path) -> Result<Path, PathFault>
        ensures { IsRead (read_from text.now base.now) result }
    {
        let walk = walk_along(alloc, text, start(text, base))?;
        walk.path()
    }

    /// The path that a text leads to from this one: an absolute text replaces it. It is `Path::read` with this path as
    /// the base.
    pub fn join(&self, alloc: Global, text: &str) -> Result<Path, PathFault>
        ensures { IsRead (read_from text.now self.now) result }
    {
        Path::read(alloc, text, self)
    }
}
