ghost use Rattle.std.specs.Prelude.{◌≡◌, ◌++◌, ℕ, [], List, Option, true, false, cond, length, IfOk, IfSome, IfNone, OnOk, OnErr};
ghost use Rattle.std.specs.List.{list_any};
ghost use Rattle.cachemounts.specs.Content.{is_content, same_content, tree_in};
ghost use Rattle.cachemounts.specs.PrivateContent.{IsFirst, IsFirstAmong, stands_at, is_before, earlier};

use crate::Content;
use crate::content::is_content;
use crate::index::Index;
use plain::{Memory, Text};
use std::alloc::Global;
use std::marker::Model;
use std::mem;
use trees::Tree;

/// Contents of caches, in the order in which they came.
#[derive(Drop)]
pub(crate) struct Contents {
    list: Vec<Content>,
    // finds a cache's contents without going through all; contracts don't see it
    index: Index,
}

impl Model for Contents {
    ghost use Rattle.std.specs.Prelude.{List};
    ghost use Rattle.std.specs.Coded.{coded_list};
    ghost use Rattle.cachemounts.specs.contracts.content.Content as content;
    ghost use Rattle.cachemounts.specs.declared.content.Content.{Content};
    ghost use Rattle.cachemounts.specs.PrivateIndex.{IsIndexed};

    ghost Value = { List Content };

    ghost coded = { coded_list content.the_row.coded };

    ghost view = { λ c. c.list.items };

    ghost invariant = { λ c. IsIndexed c.list.items c.index.places.entries };
}

impl Contents {
    /// No content. It takes no memory.
    pub(crate) fn new(alloc: Global) -> Contents
        ensures { result ≡ [] }
    {
        Contents {
            list: Vec::new(alloc),
            index: Index::new(alloc),
        }
    }

    /// The contents of a list.
    pub(crate) fn of(alloc: Global, list: Vec<Content>) -> Result<Contents, Memory>
        ensures { IfOk result (λ contents. contents ≡ list.items) }
    {
        let mut index = Index::new(alloc);
        index.enter_from(alloc, list.as_slice(), 0)?;
        Ok(Contents { list, index })
    }

    /// All contents.
    pub(crate) fn as_slice(&self) -> &[Content]
        ensures { result.now ≡ self.now }
    {
        self.list.as_slice()
    }

    /// Where the first entry of a content is.
    pub(crate) fn position_of(&self, id: &Text, slot: Option<usize>) -> Option<usize>
        ensures found { IfSome result (IsFirst self.now id.now slot) }
        ensures none { IfNone result (list_any (is_content id.now slot) self.now ≡ false) }
    {
        first_among(self.list.as_slice(), id, slot, self.index.under(id))
    }

    /// Adds contents at the end. After `Memory` the contents are as they were.
    pub(crate) fn add(&mut self, alloc: Global, mut more: Vec<Content>) -> Result<(), Memory>
        ensures ok { OnOk result (self.new ≡ self.old ++ more.items) }
        ensures err { OnErr result (self.new ≡ self.old) }
    {
        let from = self.list.len();
        self.list.append(&mut more)?;
        match self.index.enter_from(alloc, self.list.as_slice(), from) {
            Ok(()) => Ok(()),
            Err(Memory) => {
                self.list.truncate(from);
                Err(Memory)
            }
        }
    }

    /// Puts a tree in a content that is listed. It takes no memory.
    pub(crate) fn put(&mut self, id: &Text, slot: Option<usize>, tree: Tree)
        requires { list_any (is_content id.now slot) self.old ≡ true }
        ensures contents { (other : List ℕ) (there : Option ℕ)
            → tree_in self.new other there ≡ cond (same_content id.now slot other there) tree (tree_in self.old other there) }
        ensures kept { (other : List ℕ) (there : Option ℕ)
            → list_any (is_content other there) self.new ≡ list_any (is_content other there) self.old }
    {
        match self.position_of(id, slot) {
            Some(at) => {
                drop(mem::replace(&mut self.list[at].tree, tree));
            }
            None => unreachable!(),
        }
    }
}

/// Whether the content of a cache's slot stands at a place.
fn stands_at(contents: &[Content], id: &Text, slot: Option<usize>, at: usize) -> bool
    ensures { result ≡ stands_at contents.now id.now slot at }
{
    match contents.get(at) {
        Some(content) => is_content(id, slot, content),
        None => false,
    }
}

/// Whether a place is before the one that was found.
fn is_before(at: usize, first: Option<usize>) -> bool
    ensures { result ≡ is_before at first }
{
    match first {
        Some(known) => at < known,
        None => true,
    }
}

/// The earlier one of a place, where the content stands there, and of the one that was found.
fn earlier(
    contents: &[Content],
    id: &Text,
    slot: Option<usize>,
    first: Option<usize>,
    at: usize,
) -> Option<usize>
    ensures { result ≡ earlier contents.now id.now slot first at }
{
    if is_before(at, first) && stands_at(contents, id, slot, at) {
        Some(at)
    } else {
        first
    }
}

/// The first of some places at which the content of a cache's slot stands. Common contents of one id may be there twice, so all places are tried.
fn first_among(
    contents: &[Content],
    id: &Text,
    slot: Option<usize>,
    places: &[usize],
) -> Option<usize>
    ensures { IsFirstAmong contents.now id.now slot places.now (length places.now) result }
{
    let mut first = None;
    for place in places {
        first = earlier(contents, id, slot, first, *place);
    }
    first
}
