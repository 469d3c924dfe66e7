ghost use Rattle.std.specs.Prelude.{◌≡◌, ℕ, List, [], ◌∷◌, ◌++◌, OnOk, true, length, map, IfOk, Option};
ghost use Rattle.cachemounts.specs.Holds.{of_holder};
ghost use Rattle.cachemounts.specs.Content.{common_content, slot_of, same_slot, is_content, tree_in, tree_held, given_back, have_contents};
ghost use Rattle.cachemounts.specs.PrivateContent.{AreEmpty};
ghost use Rattle.cachemounts.specs.declared.holds.Hold.{Hold};

use crate::contents::Contents;
use crate::{Access, Hold};
use plain::{Exact, Memory, Text};
use std::alloc::Global;
use trees::Tree;

/// A content of a cache and the tree in it. `slot` is the number of its private slot, or `None` for the common content.
#[derive(Drop)]
pub struct Content {
    pub id: Text,
    pub slot: Option<usize>,
    pub tree: Tree,
}

/// The common contents of caches, by the caches' ids.
pub(crate) fn common_contents(
    alloc: Global,
    trees: Vec<(Text, Tree)>,
) -> Result<Vec<Content>, Memory>
    ensures { IfOk result (λ contents. contents.items ≡ map common_content trees.items) }
{
    let mut contents = Vec::with_capacity(alloc, trees.len())?;
    for (id, tree) in trees {
        contents.push(Content {
            id,
            slot: None,
            tree,
        })?;
    }
    Ok(contents)
}

fn slot_of(access: Access) -> Option<usize>
    ensures { result ≡ slot_of access }
{
    match access {
        Access::Together => None,
        Access::Alone => None,
        Access::Slot(slot) => Some(slot),
    }
}

fn same_slot(slot: Option<usize>, other: Option<usize>) -> bool
    ensures { result ≡ same_slot slot other }
{
    match (slot, other) {
        (None, None) => true,
        (Some(slot), Some(other)) => slot == other,
        _ => false,
    }
}

/// Whether this is the content of a cache's slot.
pub(crate) fn is_content(id: &Text, slot: Option<usize>, content: &Content) -> bool
    ensures { result ≡ is_content id.now slot content.now }
{
    content.id == *id && same_slot(content.slot, slot)
}

/// A copy of the tree in a content.
fn copy_of(
    alloc: Global,
    contents: &Contents,
    id: &Text,
    slot: Option<usize>,
) -> Result<Tree, Memory>
    ensures { IfOk result (λ tree. tree ≡ tree_in contents.now id.now slot) }
{
    let list = contents.as_slice();
    match contents.position_of(id, slot) {
        Some(at) => Ok(list[at].tree.copy(alloc)?),
        None => Ok(Tree::empty(alloc)),
    }
}

/// Copies of the trees in the contents that are held, in the order of the holds.
pub(crate) fn copies_of(
    alloc: Global,
    contents: &Contents,
    holds: &[Hold],
) -> Result<Vec<Tree>, Memory>
    ensures { IfOk result (λ trees. trees.items ≡ map (tree_held contents.now) holds.now) }
{
    let mut trees = Vec::with_capacity(alloc, holds.len())?;
    for hold in holds {
        trees.push(copy_of(alloc, contents, &hold.id, slot_of(hold.access))?)?;
    }
    Ok(trees)
}

/// Adds the content that is held, with the empty tree, where it isn't listed.
fn add_missing(
    alloc: Global,
    contents: &Contents,
    more: &mut Vec<Content>,
    hold: &Hold,
) -> Result<(), Memory>
    ensures empty { OnOk result (AreEmpty more.old.items → AreEmpty more.new.items) }
    ensures have { OnOk result ((holds : List Hold) → have_contents (contents.now ++ more.old.items) holds ≡ true
        → have_contents (contents.now ++ more.new.items) (holds ++ hold.now ∷ []) ≡ true) }
{
    let slot = slot_of(hold.access);
    if let Some(_at) = contents.position_of(&hold.id, slot) {
        return Ok(());
    }
    let id = hold.id.copy(alloc)?;
    more.push(Content {
        id,
        slot,
        tree: Tree::empty(alloc),
    })?;
    Ok(())
}

/// The contents that are held and not yet listed, with the empty tree.
pub(crate) fn new_contents(
    alloc: Global,
    contents: &Contents,
    holds: &[Hold],
) -> Result<Vec<Content>, Memory>
    ensures empty { IfOk result (λ more. AreEmpty more.items) }
    ensures have { IfOk result (λ more. have_contents (contents.now ++ more.items) holds.now ≡ true) }
{
    let mut more = Vec::new(alloc);
    for hold in holds {
        add_missing(alloc, contents, &mut more, hold)?;
    }
    Ok(more)
}

/// Puts trees in the contents that a holder holds, in the order of its holds. It takes no memory.
pub(crate) fn give_back(
    contents: &mut Contents,
    holds: &[Hold],
    holder: usize,
    mut trees: Vec<Tree>,
)
    requires count { length trees.items ≡ length (of_holder holder holds.now) }
    requires have { have_contents contents.old holds.now ≡ true }
    ensures contents { (id : List ℕ) (slot : Option ℕ)
        → tree_in contents.new id slot ≡ given_back (of_holder holder holds.now) trees.items id slot (tree_in contents.old id slot) }
    ensures have { have_contents contents.new holds.now ≡ true }
{
    for hold in holds {
        if hold.holder == holder {
            let tree = trees.remove(0);
            contents.put(&hold.id, slot_of(hold.access), tree);
        }
    }
}

/// Copies of contents and their trees.
pub(crate) fn copied(alloc: Global, contents: &[Content]) -> Result<Vec<Content>, Memory>
    ensures { IfOk result (λ copies. copies.items ≡ contents.now) }
{
    let mut copies = Vec::with_capacity(alloc, contents.len())?;
    for content in contents {
        let id = content.id.copy(alloc)?;
        let tree = content.tree.copy(alloc)?;
        copies.push(Content {
            id,
            slot: content.slot,
            tree,
        })?;
    }
    Ok(copies)
}
