// A tree grown from rows in the order of a walk: a folder before what is in it, names rising. Rows are taken from the last to the first, each
// folder's names are gathered in one list, and a folder is hung in once. No row is looked for from the root.
ghost use Rattle.std.specs.Prelude.{◌≡◌, ◌≤◌, IsTrue, IfOk, OnOk, MatchOption, [], ◌∷◌, take, drop, length, reverse, true};
ghost use Rattle.std.specs.Arc.{arc_value};
ghost use Rattle.std.specs.FinMap.Entries.{is_sorted, below_all};
ghost use Rattle.paths.specs.Order.{name_cmp};
ghost use Rattle.paths.specs.Path.{IsClean};
ghost use Rattle.trees.specs.PrivateNode.{joined, lists_of, are_full};
ghost use Rattle.trees.specs.PrivateGrowing.{AreMoved, IsGrown, ComesNext, IsLast};

use crate::inner::lifted;
use crate::names::Names;
use crate::node::Node;
use crate::part::{Part, most_names};
use crate::{Entry, Meta};
use paths::Path;
use plain::{Exact, Memory, Text};
use std::alloc::Global;
use std::marker::Model;
use std::sync::Arc;

/// The children of a folder that are gathered so far, those with the greatest names first.
#[derive(Drop)]
struct Gathered {
    /// Parts that are full, the last first.
    parts: Vec<Part>,
    /// The names before them, the last first.
    rows: Vec<(Text, Node)>,
    /// How many names the longest path among these children and below them has.
    depth: usize,
}

impl Model for Gathered {
    ghost use Rattle.std.specs.Prelude.{ℕ, List};
    ghost use Rattle.trees.specs.PrivateNode.{NodeValue, kids_code, lists_of};
    ghost use Rattle.trees.specs.PrivateGrowing.{gathered, AreGathered};

    ghost Value = { List (List ℕ × NodeValue) };

    ghost coded = { kids_code };

    ghost view = { λ g. gathered g.rows.items (lists_of g.parts.items) };

    ghost invariant = { λ g. AreGathered g.rows.items (lists_of g.parts.items) g.depth };
}

impl Gathered {
    /// None yet. It takes no memory.
    fn none(alloc: Global) -> Gathered
        ensures { result ≡ [] }
    {
        Gathered {
            parts: Vec::new(alloc),
            rows: Vec::new(alloc),
            depth: 0,
        }
    }

    /// Whether a name comes before all of these.
    fn begins_past(&self, name: &Text) -> bool
        ensures { IsTrue result → below_all name_cmp name.now self.now ≡ true }
    {
        match self.rows.as_slice() {
            [] => self.parts.is_empty(),
            [.., first] => name < &first.0,
        }
    }

    /// One child more, before all others.
    fn with(self, alloc: Global, name: &Text, kid: Node) -> Result<Gathered, Memory>
        requires { below_all name_cmp name.now self ≡ true }
        ensures { IfOk result (λ more. more ≡ (name.now, kid) ∷ self) }
    {
        let Gathered {
            mut parts,
            mut rows,
            depth,
        } = self;
        let deepest = depth.max(lifted(kid.depth(), 1));
        make_room(alloc, &mut parts, &mut rows)?;
        rows.push((name.copy(alloc)?, kid))?;
        Ok(Gathered {
            parts,
            rows,
            depth: deepest,
        })
    }

    /// The node that has an entry and these children.
    fn into_node(self, alloc: Global, entry: Entry) -> Result<Node, Memory>
        ensures top { IfOk result (λ node. node.top ≡ entry) }
        ensures below { IfOk result (λ node. node.below ≡ joined self) }
    {
        let Gathered {
            mut parts,
            mut rows,
            depth,
        } = self;
        close(alloc, &mut parts, &mut rows)?;
        parts.reverse();
        Node::of_parts(alloc, entry, parts, depth)
    }
}

/// Moves all rows into a part of their own, where there are as many as a part has.
fn make_room(
    alloc: Global,
    parts: &mut Vec<Part>,
    rows: &mut Vec<(Text, Node)>,
) -> Result<(), Memory>
    requires full { are_full (lists_of parts.old.items) ≡ true }
    requires rise { is_sorted name_cmp (reverse rows.old.items) ≡ true }
    ensures { OnOk result (AreMoved rows.old.items (lists_of parts.old.items) rows.new.items (lists_of parts.new.items)) }
{
    if rows.len() < most_names(parts.len()) {
        return Ok(());
    }
    close(alloc, parts, rows)
}

/// Moves all rows into a part of their own, if there are any.
fn close(alloc: Global, parts: &mut Vec<Part>, rows: &mut Vec<(Text, Node)>) -> Result<(), Memory>
    requires full { are_full (lists_of parts.old.items) ≡ true }
    requires rise { is_sorted name_cmp (reverse rows.old.items) ≡ true }
    ensures moved { OnOk result (AreMoved rows.old.items (lists_of parts.old.items) rows.new.items (lists_of parts.new.items)) }
    ensures none_left { OnOk result (rows.new.items ≡ []) }
{
    if rows.is_empty() {
        return Ok(());
    }
    let part = part_of(alloc, rows)?;
    parts.push(part)?;
    Ok(())
}

/// Takes all rows, whose names fall, as a part, in which they rise. It has no room that it doesn't need.
fn part_of(alloc: Global, rows: &mut Vec<(Text, Node)>) -> Result<Part, Memory>
    requires { is_sorted name_cmp (reverse rows.old.items) ≡ true }
    ensures part { IfOk result (λ part. arc_value part ≡ reverse rows.old.items) }
    ensures none_left { OnOk result (rows.new.items ≡ []) }
{
    let mut rising = Vec::with_capacity(alloc, rows.len())?;
    while let Some(row) = rows.pop() {
        rising.push(row)?;
    }
    let part = Arc::new(alloc, Names::of_rows(rising))?;
    Ok(part)
}

/// Whether the path of a row is that of a folder, or goes on from it with a name before all children that it has so far.
fn comes_next(path: &Path, folder: &[Text], kids: &Gathered) -> bool
    ensures { IsTrue result → ComesNext path.now folder.now kids.now }
{
    let names = path.components();
    if !names.starts_with(folder) {
        return false;
    }
    match names.get(folder.len()) {
        None => true,
        Some(name) => kids.begins_past(name),
    }
}

/// Takes the last row, if it comes next.
fn pop_next(
    left: &mut Vec<(Path, Entry)>,
    folder: &[Text],
    kids: &Gathered,
) -> Option<(Path, Entry)>
    ensures { MatchOption result (left.new.items ≡ left.old.items) (λ row. IsLast left.old.items left.new.items row folder.now kids.now) }
{
    let Some(row) = left.last() else {
        return None;
    };
    if !comes_next(&row.0, folder, kids) {
        return None;
    }
    left.pop()
}

/// Grows the node at the first names of a path, of which a row with this entry was the last. It takes the rows before it, as long as they go on
/// in the order of a walk, the last first.
pub(crate) fn grow(
    alloc: Global,
    left: &mut Vec<(Path, Entry)>,
    path: &Path,
    depth: usize,
    entry: Entry,
) -> Result<Node, Memory>
    requires { depth ≤ length path.now }
    ensures { IfOk result (λ node. IsGrown left.old.items left.new.items (take depth path.now) (drop depth path.now) entry node) }
{
    let names = path.components();
    let Some(name) = names.get(depth) else {
        return Ok(Node::leaf(entry));
    };
    let kid = grow(alloc, left, path, depth + 1, entry)?;
    let mut kids = Gathered::none(alloc).with(alloc, name, kid)?;
    while let Some((next, entry)) = pop_next(left, &names[..depth], &kids) {
        match next.components().get(depth) {
            None => return kids.into_node(alloc, entry),
            Some(name) => {
                let kid = grow(alloc, left, &next, depth + 1, entry)?;
                kids = kids.with(alloc, name, kid)?;
            }
        }
    }
    kids.into_node(alloc, Entry::Directory(Meta::directory()))
}
