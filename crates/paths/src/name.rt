ghost use Rattle.std.specs.Prelude.{◌≡◌, [], ◌∷◌, SomeIff};
ghost use Rattle.paths.specs.Path.{is_whole};
ghost use Rattle.paths.specs.Name.{is_component, IsComponent};

use crate::reading::{is_idle, is_up};
use plain::limits::MOST_COMPONENT_BYTES;
use plain::{Exact, Memory, Text};
use std::alloc::Global;
use std::marker::Model;

/// The name of an entry in its directory: what is one component of a path.
#[derive(Debug, Drop)]
pub struct Name {
    text: Text,
}

impl Model for Name {
    ghost use Rattle.std.specs.Prelude.{List, ℕ};
    ghost use Rattle.std.specs.Coded.{coded_list, coded_ℕ};
    ghost use Rattle.paths.specs.Name.{IsComponent};

    ghost Value = { List ℕ };

    ghost coded = { coded_list coded_ℕ };

    ghost view = { λ n. n.text };

    ghost invariant = { λ n. IsComponent n.text };
}

impl Name {
    /// The name that a text is; `None` exactly where it is no component of a path: it is empty, `.` or `..`, has a `/`, or has more
    /// than 255 bytes.
    pub fn new(text: Text) -> Option<Name>
        ensures { SomeIff result (IsComponent text) text }
    {
        if !is_component(text.as_str()) {
            return None;
        }
        Some(Name { text })
    }

    /// The name as a text, lent.
    pub fn as_text(&self) -> &Text
        ensures value { result.now ≡ self.now }
        ensures component { IsComponent self.now }
    {
        &self.text
    }
}

impl Exact for Name {
    fn same(&self, other: &Name) -> bool {
        self.text.same(&other.text)
    }

    fn copy(&self, alloc: Global) -> Result<Name, Memory> {
        let text = self.text.copy(alloc)?;
        Ok(Name { text })
    }
}

/// Whether a text is a component of a path.
fn is_component(text: &str) -> bool
    ensures { result ≡ is_component text.now }
{
    !is_idle(text)
        && !is_up(text)
        && is_whole(text.as_bytes())
        && text.len() <= MOST_COMPONENT_BYTES
}

/// Whether there is no `/` among the bytes.
fn is_whole(bytes: &[u8]) -> bool
    ensures { result ≡ is_whole bytes.now }
{
    for byte in bytes {
        if *byte == b'/' {
            return false;
        }
    }
    true
}
