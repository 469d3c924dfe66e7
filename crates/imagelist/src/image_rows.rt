// Images by their names, in the order in which they are named first.
ghost use Rattle.std.specs.Prelude.{◌≡◌, [], IfOk, OnOk};
ghost use Rattle.imagelist.specs.PrivateCollecting.{only_use, with_use, with_naming};

use indexmap::IndexMap;
use indexmap::map::Slice;
use plain::{Exact, Items, Memory, Text};
use std::alloc::Global;
use std::hash::RandomState;
use std::marker::Model;

/// How an image is used.
#[derive(Drop)]
pub struct ImageUse {
    /// The lines of the instructions that name it, in the order of the file.
    pub lines: Items<u32>,
    /// Whether one of them is in a stage that is needed.
    pub needed: bool,
}

impl ImageUse {
    /// The use by one instruction.
    fn only(alloc: Global, line: u32, needed: bool) -> Result<ImageUse, Memory>
        ensures { IfOk result (λ used. used ≡ only_use line needed) }
    {
        let mut lines = Items::new(alloc);
        lines.push(line)?;
        Ok(ImageUse { lines, needed })
    }

    /// Adds the use by the instruction of a later line.
    fn add(&mut self, line: u32, needed: bool) -> Result<(), Memory>
        ensures { OnOk result (self.new ≡ with_use self.old line needed) }
    {
        self.lines.push(line)?;
        self.needed = self.needed || needed;
        Ok(())
    }
}

/// Images by their names, each once, in the order in which they are named first.
///
/// Strangers choose the names, so they are found by a hash with keys that strangers can't know.
#[derive(Drop)]
pub(crate) struct ImageRows {
    rows: IndexMap<Text, ImageUse, RandomState>,
}

impl Model for ImageRows {
    ghost use Rattle.std.specs.Prelude.{List, ℕ};
    ghost use Rattle.imagelist.specs.declared.image_rows.ImageUse.{ImageUse as Use};

    ghost Value = { List (List ℕ × Use) };

    ghost use Rattle.imagelist.specs.PrivateRows.{rows_code};

    ghost coded = { rows_code };

    ghost view = { λ r. r.rows.entries };
}

impl ImageRows {
    /// No images, and the keys of the hash by which they are found. It takes no memory.
    pub(crate) fn new(alloc: Global, keys: RandomState) -> ImageRows
        ensures { result ≡ [] }
    {
        ImageRows {
            rows: IndexMap::with_hasher(alloc, keys),
        }
    }

    /// The images with their names, lent.
    pub(crate) fn as_slice(&self) -> Slice<'_, Text, ImageUse>
        ensures { result ≡ self.now }
    {
        self.rows.as_slice()
    }

    /// Adds that the instruction of a line names an image.
    pub(crate) fn add(
        &mut self,
        alloc: Global,
        name: &Text,
        line: u32,
        needed: bool,
    ) -> Result<(), Memory>
        ensures { OnOk result (self.new ≡ with_naming self.old (record { name = name.now; line = line; needed = needed })) }
    {
        match self.rows.get_index_of(name) {
            Some(index) => self.rows[index].add(line, needed),
            None => {
                let used = ImageUse::only(alloc, line, needed)?;
                self.rows.insert(name.copy(alloc)?, used)?;
                Ok(())
            }
        }
    }
}
