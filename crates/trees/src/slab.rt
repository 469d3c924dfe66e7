ghost use Rattle.std.specs.Prelude.{◌≡◌, IfOk, OnOk, OnErr, drop, take};

use crate::Content;
use plain::{Bytes, Memory};
use std::alloc::Global;
use std::marker::Model;
use std::sync::Arc;

/// The bytes of several files, one after another in one block of memory, from which contents are cut. Contracts see those that are left.
///
/// The contents share the block. So small files that come together take memory once, and who copies them one after another counts in one
/// place. The block stays as long as one of them does: what is large, or may long outlive the others, is better off by itself.
#[derive(Debug, Drop)]
pub struct Slab {
    bytes: Arc<Bytes, Global>,
    at: usize,
}

impl Model for Slab {
    ghost use Rattle.std.specs.Prelude.{◌≤◌, List, ℕ, drop, length};
    ghost use Rattle.std.specs.Coded.{coded_list, coded_ℕ};
    ghost use Rattle.std.specs.Arc.{arc_value};

    ghost Value = { List ℕ };

    ghost coded = { coded_list coded_ℕ };

    ghost view = { λ slab. drop slab.at (arc_value slab.bytes) };

    ghost invariant = { λ slab. slab.at ≤ length (arc_value slab.bytes) };
}

impl Slab {
    /// A slab of these bytes, none of which is cut off. It copies none of them.
    pub fn new(alloc: Global, bytes: Bytes) -> Result<Slab, Memory>
        ensures { IfOk result (λ slab. slab ≡ bytes) }
    {
        let bytes = Arc::new(alloc, bytes)?;
        Ok(Slab { bytes, at: 0 })
    }

    /// The content of the next bytes, so many of them, or of all that are left if they aren't so many. Without memory nothing is cut off.
    pub fn cut(&mut self, alloc: Global, len: usize) -> Result<Content, Memory>
        ensures content { IfOk result (λ content. content ≡ take len self.old) }
        ensures left { OnOk result (self.new ≡ drop len self.old) }
        ensures err { OnErr result (self.new ≡ self.old) }
    {
        let left = self.bytes.as_slice().len() - self.at;
        let len = len.min(left);
        let content = Content::within(alloc, &self.bytes, self.at, len)?;
        self.at = self.at + len;
        Ok(content)
    }
}
