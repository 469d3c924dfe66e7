ghost use Rattle.std.specs.Prelude.{◌≡◌, ◌≤◌, ◌+◌, IfOk, drop, length, take};
ghost use Rattle.std.specs.Arc.{arc_value};

use crate::few::Few;
use plain::{Bytes, Exact, Memory};
use std::alloc::Global;
use std::marker::Model;
use std::sync::Arc;

/// Where the bytes lie: few of them in the value itself, which takes no memory of its own, and who goes through a tree takes no step
/// through a pointer to them; more of them in memory that copies share.
///
/// A part of a slab is as many bytes from a place on as the two numbers say. They are as wide as there is room for beside a tag, so that it
/// takes no more than a pointer does.
#[derive(Debug, Drop)]
enum Stored {
    Short(Few),
    Shared(Arc<Bytes, Global>),
    Part(u16, u32, Arc<Bytes, Global>),
}

/// The bytes of a file, which need not be text. Contracts see the list of them.
///
/// Copies share them, but for few: no change to a tree copies the bytes of a large file.
#[derive(Debug)]
pub struct Content {
    stored: Stored,
}

/// A content ends by a call, so that no proof above goes by where its bytes lie at each place where one is let go.
impl Drop for Content {
    fn drop(self) {
        let Content { stored: _ } = self;
    }
}

impl Model for Content {
    ghost use Rattle.std.specs.Prelude.{List, ℕ};
    ghost use Rattle.std.specs.Coded.{coded_list, coded_ℕ};
    ghost use Rattle.trees.specs.PrivateContent.{stored_bytes, Fits};

    ghost Value = { List ℕ };

    ghost coded = { coded_list coded_ℕ };

    ghost view = { λ content. stored_bytes content.stored };

    ghost invariant = { λ content. Fits content.stored };
}

impl Content {
    /// The content of these bytes, which are copied only where they are few.
    pub fn new(alloc: Global, bytes: Bytes) -> Result<Content, Memory>
        ensures { IfOk result (λ content. content ≡ bytes) }
    {
        let stored = match Few::of(bytes.as_slice()) {
            Some(few) => Stored::Short(few),
            None => Stored::Shared(Arc::new(alloc, bytes)?),
        };
        Ok(Content { stored })
    }

    /// The content of so many bytes of a slab from a place on. The slab is shared, but where they are few, or lie where the value has no numbers
    /// for: such bytes are copied.
    pub(crate) fn within(
        alloc: Global,
        slab: &Arc<Bytes, Global>,
        from: usize,
        len: usize,
    ) -> Result<Content, Memory>
        requires { from + len ≤ length (arc_value slab.now) }
        ensures { IfOk result (λ content. content ≡ take len (drop from (arc_value slab.now))) }
    {
        let bytes = &slab.as_slice()[from..from + len];
        if let Some(few) = Few::of(bytes) {
            return Ok(Content {
                stored: Stored::Short(few),
            });
        }
        if len > u16::MAX as usize || from > u32::MAX as usize {
            return Content::new(alloc, Bytes::from_slice(alloc, bytes)?);
        }
        let slab = Arc::try_clone(slab)?;
        Ok(Content {
            stored: Stored::Part(len as u16, from as u32, slab),
        })
    }

    /// The bytes, lent.
    pub fn as_slice(&self) -> &[u8]
        ensures { result.now ≡ self.now }
    {
        match &self.stored {
            Stored::Short(few) => few.as_slice(),
            Stored::Shared(bytes) => bytes.as_slice(),
            Stored::Part(len, from, slab) => {
                let from = *from as usize;
                &slab.as_slice()[from..from + *len as usize]
            }
        }
    }
}

impl Exact for Content {
    fn same(&self, other: &Content) -> bool {
        self.as_slice() == other.as_slice()
    }

    fn copy(&self, _alloc: Global) -> Result<Content, Memory> {
        let stored = match &self.stored {
            Stored::Short(few) => Stored::Short(*few),
            Stored::Shared(bytes) => Stored::Shared(Arc::try_clone(bytes)?),
            Stored::Part(len, from, slab) => Stored::Part(*len, *from, Arc::try_clone(slab)?),
        };
        Ok(Content { stored })
    }
}
