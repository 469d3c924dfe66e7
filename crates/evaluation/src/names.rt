ghost use Rattle.std.specs.Prelude.{◌≡◌, [], length, nat_lt, OnOk, OnErr};
ghost use Rattle.plain.specs.Limits.{most_images};
ghost use Rattle.evaluation.specs.Images.{is_among, with_name, with_origin, with_origins};

use llb::Source;
use named::{NamedRows, Present};
use plain::limits::MOST_IMAGES;
use plain::{Exact, Memory, Text};
use rows::Origin;
use std::alloc::Global;
use std::hash::RandomState;
use std::marker::Model;

/// The names of the images that were named so far.
///
/// Contracts see a list of them, each once, in the order in which they were named first.
#[derive(Drop)]
pub struct NamedImages {
    names: NamedRows<Present>,
}

impl Model for NamedImages {
    ghost use Rattle.std.specs.Prelude.{List, ℕ, map};
    ghost use Rattle.std.specs.Coded.{coded_list, coded_ℕ};

    ghost Value = { List (List ℕ) };

    ghost coded = { coded_list (coded_list coded_ℕ) };

    ghost view = { λ n. map (λ row. row.0) n.names };
}

impl NamedImages {
    /// No name, found by a hash with these keys. It takes no memory.
    pub fn new(alloc: Global, keys: RandomState) -> NamedImages
        ensures { result ≡ [] }
    {
        NamedImages {
            names: NamedRows::new(alloc, keys),
        }
    }

    /// How many names there are.
    pub fn len(&self) -> usize
        ensures { result ≡ length self.now }
    {
        self.names.len()
    }

    /// Whether an image is among these.
    pub fn has(&self, name: &Text) -> bool
        ensures { result ≡ is_among self.now name.now }
    {
        self.names.has(name)
    }

    /// Adds a name, unless it is there. After `Memory` nothing has changed.
    pub fn add(&mut self, alloc: Global, name: &Text) -> Result<(), Memory>
        ensures ok { OnOk result (self.new ≡ with_name self.old name.now) }
        ensures err { OnErr result (self.new ≡ self.old) }
    {
        self.names.add(name.copy(alloc)?, Present)?;
        Ok(())
    }

    /// Adds the name of an image that is named.
    pub fn add_origin(&mut self, alloc: Global, origin: &Origin) -> Result<(), Memory>
        ensures { OnOk result (self.new ≡ with_origin self.old origin.now) }
    {
        match origin {
            Origin::Source(Source::Image(name)) => self.add(alloc, name),
            Origin::Source(Source::Scratch) => Ok(()),
            Origin::Source(Source::Context) => Ok(()),
            Origin::Stage(_) => Ok(()),
        }
    }

    /// Adds the names of all images among these.
    pub fn add_origins(&mut self, alloc: Global, origins: &[Origin]) -> Result<(), Memory>
        ensures { OnOk result (self.new ≡ with_origins self.old origins.now) }
    {
        for origin in origins {
            self.add_origin(alloc, origin)?;
        }
        Ok(())
    }

    /// Whether there are more names than one build may name.
    pub fn are_many(&self) -> bool
        ensures { result ≡ nat_lt most_images (length self.now) }
    {
        self.len() > MOST_IMAGES
    }
}
