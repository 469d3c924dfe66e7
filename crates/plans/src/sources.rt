ghost use Rattle.std.specs.Prelude.{◌≡◌, ◌↔◌, IsTrue, OnOk, OnErr, option_copied};
ghost use Rattle.std.specs.FinMap.{empty, insert};
ghost use Rattle.plans.specs.Sources.{source_tree, HasSource, HasSources};

use crate::sorted::Sorted;
use llb::{Graph, Op, Source};
use plain::{Memory, Text};
use std::alloc::Global;
use std::marker::Model;
use trees::Tree;

/// The trees that are there before a build: the empty one, the context, and the images by their names.
#[derive(Drop)]
pub struct Sources {
    scratch: Tree,
    context: Tree,
    images: Sorted<Tree>,
}

impl Model for Sources {
    ghost use Rattle.std.specs.Prelude.{◌≡◌};
    ghost use Rattle.trees.specs.TreeMap.{empty_tree};
    ghost use Rattle.plans.specs.Sources.{SourcesValue, sources_code};

    ghost Value = { SourcesValue };

    ghost coded = { sources_code };

    ghost view = { λ s. record { context = s.context; images = s.images } };

    ghost invariant = { λ s. s.scratch ≡ empty_tree };
}

impl Sources {
    /// The context and no image. It takes no memory.
    pub fn new(alloc: Global, context: Tree) -> Sources
        ensures { result ≡ record { context = context; images = empty } }
    {
        Sources {
            scratch: Tree::empty(alloc),
            context,
            images: Sorted::new(alloc),
        }
    }

    /// Adds the tree of an image, in place of one that had its name. After `Memory` nothing has changed. It costs least from the last name to the first,
    /// as with `Images`.
    pub fn add_image(&mut self, name: Text, tree: Tree) -> Result<(), Memory>
        ensures ok { OnOk result
            (self.new ≡ record self.old { images = insert self.old.images name tree }) }
        ensures err { OnErr result (self.new ≡ self.old) }
    {
        self.images.insert(name, tree)?;
        Ok(())
    }

    /// Whether each source among the vertices of a graph has its tree.
    pub fn suffice(&self, graph: &Graph) -> bool
        ensures { IsTrue result ↔ HasSources self.now graph.now.vertices }
    {
        for vertex in graph.vertices() {
            if !self.suffices(&vertex.op) {
                return false;
            }
        }
        true
    }

    /// Whether the operation is no source, or one that has its tree.
    pub fn suffices(&self, op: &Op) -> bool
        ensures { IsTrue result ↔ HasSource self.now op.now }
    {
        match op {
            Op::Source(source) => self.tree(source).is_some(),
            Op::Exec(_) => true,
            Op::Copy(_) => true,
            Op::MakeDirs(_) => true,
            Op::Merge => true,
        }
    }

    /// The tree of a source; `None` where it is an image that there isn't.
    pub fn tree(&self, source: &Source) -> Option<&Tree>
        ensures { option_copied result ≡ source_tree self.now source.now }
    {
        match source {
            Source::Scratch => Some(&self.scratch),
            Source::Context => Some(&self.context),
            Source::Image(name) => self.images.get(name.as_str()),
        }
    }
}
